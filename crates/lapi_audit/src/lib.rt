//! Whether a journal is one of the atomic message machine, and where it breaks which rule.
#![tactic(auto)]

mod audited;
mod checker;
mod counts;
mod jobs;
mod journal;
mod known;
mod operation;
mod order;
mod pending;
mod rounds;
mod rule;
mod table;
mod turns;
mod waits;

pub use audited::journals_are_audited;
pub use journal::audit;
pub use rule::{Rule, Verdict};

#[cfg(test)]
mod tests;
