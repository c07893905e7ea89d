//! The generated input: a script and a schedule that one number determines.
#![tactic(auto)]

mod batch;
mod draws;
mod form;
mod generating;
mod kind;
mod lines;
mod link;
mod part;
mod random;
mod schedule;
mod script;

pub use generating::generate;
