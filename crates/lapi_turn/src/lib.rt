//! A turn: one value that many threads ask in turn, and one list of what they did.
#![tactic(auto)]

mod kept;
mod plays;
mod rule;
mod seat;
mod steps;
mod turn;

pub use kept::{Asked, Kept};
pub use seat::Seat;
pub use turn::Turn;

#[cfg(test)]
mod tests;
