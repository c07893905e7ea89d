//! Captures: what the switch handed over, as bytes, and the landings that are found in them.
#![tactic(auto)]

mod contents;
mod feed_fault;
mod flaw;
mod format;
mod incoming;
mod landing;
mod laws;
mod messages;
mod part;
mod reader;
mod seen;
mod stage;

pub use feed_fault::FeedFault;
pub use flaw::Flaw;
pub use format::LONGEST_CAPTURE;
pub use landing::Landing;
pub use laws::{captures_are_read, landings_are_told};
pub use reader::Reader;
