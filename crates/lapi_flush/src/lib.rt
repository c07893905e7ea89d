//! Lines of a schedule that bring every message home: a served part of a wire, a flush of a task, a sweep of all tasks,
//! and a round of calls that ends with a global fence. Each law is the contract of a function without a body.
#![tactic(auto)]

mod rounds;
mod served;
mod swept;

pub use rounds::rounds_go_on;
pub use served::{flushes_are_flushed, parts_are_served};
pub use swept::sweeps_settle;
