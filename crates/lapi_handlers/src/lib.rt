//! Handlers as stored closures beside their rules, and the jobs of completion handlers.
#![tactic(auto)]

mod begun;
mod built_in_completion;
mod built_in_header;
mod completion_fn;
mod finished;
mod handlers;
mod header_fn;
mod job;

pub use begun::Begun;
pub use built_in_completion::{nothing, reversed, same, sum, sum_back};
pub use built_in_header::{
    NOWHERE, PER_ORIGIN, WORD, WORD_AND_CHOICE, nowhere, per_origin, word, word_and_choice,
};
pub use completion_fn::CompletionFn;
pub use finished::Finished;
pub use handlers::Handlers;
pub use header_fn::HeaderFn;
pub use job::Job;
