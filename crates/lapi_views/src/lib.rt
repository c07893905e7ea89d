//! Views of a run for other tools: its packets as a file that they read, and its chart.
#![tactic(auto)]

mod asked;
mod before;
mod chart;
mod command;
mod fault;
mod part;
mod pcap;
mod performed;
mod rows;
mod text;
mod words;

pub use chart::write_chart;
pub use command::run;
pub use part::Part;
pub use pcap::write_pcap;
