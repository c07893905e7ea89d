use crate::cargo::Cargo;
use crate::deed::Deed;
use lapi_base::{Event, Reply};

/// One row of a chart, from left to right the columns of the tasks.
#[derive(Clone, Copy, Debug)]
pub enum Row {
    /// Line `line` of the schedule, counted from 0, was taken.
    Line {
        line: u32,
        task: u32,
        deed: Deed,
        reply: Reply,
    },
    /// The line above made this happen.
    Happened {
        task: u32,
        event: Event,
    },
    /// It left the counter at this value.
    Counted {
        task: u32,
        counter: u32,
        value: u64,
    },
    /// It put entry `place` on the wire between the two tasks.
    Sent {
        from: u32,
        to: u32,
        place: usize,
        cargo: Cargo,
    },
}
