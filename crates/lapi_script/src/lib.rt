//! The text of an input, read and written, and that of an audit, read.
#![tactic(auto)]

mod acts;
mod audit;
mod audit_state;
mod cuts;
mod events;
mod fault;
mod fields;
mod heads;
mod held_vector;
mod limits;
mod names;
mod pieces;
mod read;
pub mod reading;
mod remarks;
mod scan;
mod state;
mod statements;
mod task_lines;
mod values;
mod words;
mod write;

pub use audit::read_audit;
pub use read::read_input;
pub use write::{line_text, write_input};
