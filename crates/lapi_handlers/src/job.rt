use lapi_base::{Bytes, MsgName};

/// One call of a completion handler that is still to be made: `Handlers::complete` makes it, and takes the job.
#[derive(Debug, Drop)]
pub struct Job {
    pub name: MsgName,
    /// The target, and which of its workers runs the job.
    pub task: u32,
    pub worker: u32,
    /// The number of the completion handler.
    pub completion: u32,
    pub user: u32,
    /// The message's buffer, as it stood when the job began.
    pub buffer: Bytes,
}
