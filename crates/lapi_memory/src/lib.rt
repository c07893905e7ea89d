//! The memory of one task, and what a read-modify-write makes of a word.
#![tactic(auto)]

mod read_modify_write;
mod task_memory;

pub use read_modify_write::rmw;
pub use task_memory::TaskMemory;
