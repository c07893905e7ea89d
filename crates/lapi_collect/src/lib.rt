//! What the collective calls and fences of one task wait for: statements that were begun and are not done, and
//! the rounds that the tasks joined.
#![tactic(auto)]

mod flag_words;
mod outstanding;
mod rounds;
mod unacknowledged;

pub use outstanding::Outstanding;
pub use rounds::{AddressTable, MOST_ROUNDS, Rounds};
pub use unacknowledged::Unacknowledged;
