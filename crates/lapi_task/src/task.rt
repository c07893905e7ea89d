use crate::state::State;
use crate::unfinished::Unfinished;
use lapi_base::{Sizes, Statements};
use lapi_calls::Limits;
use lapi_link::{Receiver, Sender};

mod accessors;
mod answering;
mod copying;
mod fencing;
mod following;
mod joining;
mod polling;
mod receiving;
mod stepping;
mod ticking;
mod working;

/// One task. After a call has answered Memory it is used no more.
#[derive(Drop)]
pub struct Task {
    sizes: Sizes,
    /// By which its calls are refused.
    limits: Limits,
    statements: Statements,
    /// The round of each statement that is a collective call.
    rounds: Vec<u32>,
    state: State,
    /// Its data operations that are not done.
    unfinished: Unfinished,
    /// The links to each task.
    senders: Vec<Sender>,
    /// The links from each task.
    receivers: Vec<Receiver>,
    /// Whether each task is owed an acknowledgement of what it sent, by the next poll.
    owed: Vec<bool>,
}
