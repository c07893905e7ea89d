//! Packets as bytes: the one spelling of each packet, and the packet that bytes spell.
#![tactic(auto)]

mod acknowledgement;
mod counter;
mod data;
mod decoding;
mod encoding;
mod fault;
mod fragment;
mod front;
mod head;
mod laws;
mod leg;
mod name;
mod number;
mod operation;
mod range;
mod spans;
mod validity;

pub use decoding::decode;
pub use encoding::{encode, encode_data};
pub use laws::spelling_laws;
pub use validity::valid;
