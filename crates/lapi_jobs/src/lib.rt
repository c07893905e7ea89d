//! The jobs of one task's completion handlers: those that wait, and which of its workers runs which.
#![tactic(auto)]

mod began;
mod jobs;
mod pending;

pub use began::Began;
pub use jobs::Jobs;
pub use pending::Pending;
