/// One of the four sweeps of a round, in each of which every task is flushed once, in order: two after the calls, and
/// two after all tasks have entered the fence.
#[derive(Clone, Copy, Debug)]
pub enum Sweep {
    /// Brings what the calls send, and the answers of tasks that are flushed later.
    Calls,
    /// Brings the answers of the others.
    Answers,
    /// Brings what the fences send.
    Fences,
    /// Brings nothing: all has landed by now.
    Rest,
}
