//! Where bytes come from and where they go, each with a count of its faults.
#![tactic(auto)]

mod count_sink;
mod mem_sink;
mod mem_source;
mod sink;
mod source;
mod std_sink;
mod std_source;
mod sure_source;

pub use count_sink::CountSink;
pub use mem_sink::MemSink;
pub use mem_source::MemSource;
pub use sink::{Sink, write_all};
pub use source::{Failed, ReadAll, Source, read_all};
pub use std_sink::StdSink;
pub use std_source::StdSource;
pub use sure_source::SureSource;
