use lapi_base::{MsgName, Span};

/// A job from the landing of its message to the end of its completion handler.
#[derive(Clone, Copy, Debug, Eq, PartialEq)]
pub struct Pending {
    pub name: MsgName,
    /// The number of the completion handler.
    pub completion: u32,
    pub user: u32,
    /// Where the message's bytes lie, if they weren't discarded.
    pub buffer: Option<Span>,
    /// The counter at the target that rises at the job's end.
    pub target_counter: Option<u32>,
    /// The counter at the origin that is told of the job's end.
    pub completion_counter: Option<u32>,
}
