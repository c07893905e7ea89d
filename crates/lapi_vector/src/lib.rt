//! The pieces of a vector: bytes that lie apart in a memory and are read and written in order.
#![tactic(auto)]

mod pieces;

pub use pieces::Pieces;
