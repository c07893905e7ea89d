//! Two-dimensional arrays of words in blocks over a grid of tasks: plans of sets and gets, the script that does them,
//! the plain array that it leaves, and lines that run it. Each law is the contract of a function without a body.
#![tactic(auto)]

mod arrays;
mod patch;
mod plan;
mod runs;
mod scripts;

pub use arrays::arrays_are_plain;
pub use patch::Patch;
pub use plan::{Op, Ops, Plan};
pub use runs::{plans_are_counted, plans_run};
pub use scripts::scripts_are_valid;
