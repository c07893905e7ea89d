use lapi_base::{Bytes, Effect, MsgName};

/// A job whose completion handler has answered.
#[derive(Debug, Drop)]
pub struct Finished {
    pub name: MsgName,
    pub task: u32,
    pub worker: u32,
    pub effect: Effect,
    /// The job's buffer.
    pub buffer: Bytes,
}
