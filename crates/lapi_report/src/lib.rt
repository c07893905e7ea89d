//! The output texts, written to a sink line by line.
#![tactic(auto)]

mod act;
mod capture;
mod event;
mod head;
mod journal;
mod landings;
mod memory;
mod packet;
mod parts;
mod report;
mod rising;
mod summary;
mod taken;
mod task;
mod text_line;
mod trace;
mod wire;

pub use capture::write_capture;
pub use journal::write_journal;
pub use landings::{write_feed_fault, write_landings};
pub use packet::write_packet;
pub use report::write_report;
pub use summary::write_summary;
pub use taken::write_taken;
pub use trace::write_trace;
pub use wire::write_wire;
