//! The counters of one task.
#![tactic(auto)]

mod counters;

pub use counters::Counters;
