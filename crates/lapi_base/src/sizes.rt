ghost use Rattle.std.specs.Prelude.{◌≡◌};
ghost use Rattle.lapi_base.specs.Packet.Layout.{sizes_of};

use crate::script::Script;

/// The layout and the sizes of a script, without its statements.
#[derive(Clone, Copy, Debug, Eq, PartialEq)]
pub struct Sizes {
    /// The layout of its packets, 1 or 2.
    pub layout: u32,
    /// How many tasks there are.
    pub tasks: u32,
    /// The bytes of each task's memory.
    pub memory: u32,
    /// How many counters each task has.
    pub counters: u32,
    /// How many workers run completion handlers at each task.
    pub workers: u32,
}

impl Script {
    /// Its layout and sizes.
    pub fn sizes(&self) -> Sizes
        ensures { result ≡ sizes_of self.now }
    {
        Sizes {
            layout: self.layout,
            tasks: self.tasks,
            memory: self.memory,
            counters: self.counters,
            workers: self.workers,
        }
    }
}
