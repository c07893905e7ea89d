use lapi_base::Bad;

/// What came to a task.
#[derive(Clone, Copy, Debug, Eq, PartialEq)]
pub enum Received {
    /// No packet; where it fails, and why.
    Refused(Bad),
    Data,
    Ack,
}
