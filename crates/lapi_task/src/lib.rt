//! One task as the endpoint of its links: its statements, its memory, its counters, and what it sends and receives.
#![tactic(auto)]

mod collective;
mod copy;
mod counting;
mod effect;
mod follower;
mod header;
mod landing;
mod law;
mod outcome;
mod packet;
mod queueing;
mod received;
mod rounds;
mod spans;
mod state;
mod statement;
mod task;
mod unfinished;

pub use law::{tasks_stay_apart, wires_may_come};
pub use outcome::Outcome;
pub use received::Received;
pub use task::Task;
