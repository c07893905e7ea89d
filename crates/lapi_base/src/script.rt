use crate::statement::StatementLists;

/// What each task calls, and the sizes that all tasks have.
#[derive(Debug, Drop)]
pub struct Script {
    /// The layout of its packets, 1 or 2; only scripts of layout 1 are valid so far.
    pub layout: u32,
    /// How many tasks there are.
    pub tasks: u32,
    /// The bytes of each task's memory.
    pub memory: u32,
    /// How many counters each task has.
    pub counters: u32,
    /// How many workers run completion handlers at each task.
    pub workers: u32,
    /// One list of statements for each task.
    pub lists: StatementLists,
}
