//! What a script and its handlers' rules say of one statement and its messages: its kind, what it names,
//! which legs it has, and why it is refused. Everything above asks it here: a task of its own statements,
//! and whoever judges a journal.
#![tactic(auto)]

mod entries;
mod head;
mod length;
mod limits;
mod name;
mod no_entries;
mod pieces;
mod reach;
mod reason;
mod setting;
mod spans;
mod statement;

pub use entries::Entries;
pub use head::{go_head, join_head};
pub use length::message_length;
pub use limits::Limits;
pub use name::{is_go, place_of, receiver, target};
pub use no_entries::NoEntries;
pub use reason::{refusal_of, why_refused};
pub use setting::Setting;
pub use spans::{origin_spans, target_spans};
pub use statement::{
    completion_counter, has_back, is_data, is_entered, is_issued, is_message, is_passed,
    origin_counter, own_counter, peer, target_counter, target_of,
};
