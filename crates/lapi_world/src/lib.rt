//! Worlds: tasks, the wires between them and a journal, line by line.
#![tactic(auto)]

mod finished_jobs;
mod network;
mod wire;
mod world;

pub use finished_jobs::FinishedJobs;
pub use world::World;
