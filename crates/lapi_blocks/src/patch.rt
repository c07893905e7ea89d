/// A rectangle of words of an array, and a task.
#[derive(Clone, Copy, Debug)]
pub struct Patch {
    pub task: u32,
    /// Its first row.
    pub row: u32,
    /// Its first column.
    pub col: u32,
    /// How many rows it has.
    pub rows: u32,
    /// How many columns.
    pub cols: u32,
}
