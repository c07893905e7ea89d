//! What the global fences of a script order: the statements between two of them are an epoch of their task. And what
//! the memories hold at the ends of epochs. Each law is the contract of a function without a body.
#![tactic(auto)]

mod epochs;
mod stages;

pub use epochs::epochs_wait;
pub use stages::memories_are_stages;
