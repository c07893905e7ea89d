/// What became of a number that came.
#[derive(Clone, Copy, Debug, Eq, PartialEq)]
pub enum Took {
    /// It was taken before.
    Repeat,
    /// It lies beyond the window.
    Beyond,
    /// It came for the first time, and is taken now.
    Fresh,
}
