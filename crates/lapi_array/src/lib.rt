//! Two-dimensional arrays in blocks: the text of a plan, read; the script that does it; and the text of what it leaves.
#![tactic(auto)]

mod compiled;
mod compiling;
mod entries;
mod grid;
mod lines;
mod numbers;
mod op_line;
mod output;
mod part;
mod plan_state;
mod plan_text;
mod schedule;
mod sweep;
mod writing;

pub use compiled::compile;
pub use compiling::array_script;
pub use output::{runs_are_left, write_array};
pub use plan_text::read_plan;
pub use writing::array_text;
