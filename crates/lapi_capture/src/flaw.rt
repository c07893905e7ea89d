/// Why bytes are no capture.
#[derive(Clone, Copy, Debug, Eq, PartialEq)]
pub enum Flaw {
    /// They don't begin as a capture does.
    Magic,
    /// A frame is from or to a task above 7.
    Task,
    /// A frame has more than 1,280 bytes.
    Size,
    /// They ended before the end was told.
    Early,
    /// A byte follows the end.
    After,
    /// A frame's packet is of other tasks, or its message had another layout or length before.
    Clash,
}
