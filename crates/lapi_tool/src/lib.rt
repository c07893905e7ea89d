//! The commands: what a user's words and input come to, from the bytes in to the bytes out.
#![tactic(auto)]

mod array;
mod audited;
mod command;
mod counts;
mod fault;
mod generated;
mod landings;
mod live;
mod live_text;
mod performed;
mod surely;
mod text;
mod verdict;
mod views;
mod words;

pub use audited::journals_are_told_atomic;
pub use command::run;
pub use live::run_live;
pub use surely::{run_counted, run_in_memory};
