ghost use Rattle.std.specs.Prelude.{◌≡◌, [], ◌∷◌, ◌++◌, OnOk, OnErr};

use crate::bytes::Bytes;
use crate::memory::Memory;
use std::alloc::Global;
use std::marker::Model;

/// What a schedule line does. A wire's entries are counted from 0.
#[derive(Debug, Drop)]
pub enum Act {
    /// The task's next statement.
    Step(u32),
    /// The task copies what it issued, and sends what its windows allow.
    Poll(u32),
    /// The task sends again what isn't acknowledged.
    Tick(u32),
    /// The switch hands entry `k` of wire (`a`, `b`) to `b`.
    Deliver { a: u32, b: u32, k: u32 },
    /// The switch hands over the first `n` bytes of that entry alone.
    Cut { a: u32, b: u32, k: u32, n: u32 },
    /// The switch hands bytes that spell no packet to `b`, as from `a`.
    Inject { a: u32, b: u32, bytes: Bytes },
    /// The worker takes the task's oldest job.
    Begin { task: u32, worker: u32 },
    End { task: u32, worker: u32 },
}

/// A schedule line, in one of 16 lanes.
#[derive(Debug, Drop)]
pub struct Line {
    pub lane: u32,
    pub act: Act,
}

/// The lines of a schedule, in file order.
#[derive(Debug, Drop)]
pub struct Schedule {
    items: Vec<Line>,
}

impl Model for Schedule {
    ghost use Rattle.std.specs.Prelude.{List};
    ghost use Rattle.lapi_base.specs.declared.schedule.Line.{Line};

    ghost Value = { List Line };

    ghost view = { λ list. list.items.items };
}

impl Schedule {
    /// The empty list, which takes no memory yet.
    pub fn new(alloc: Global) -> Schedule
        ensures { result ≡ [] }
    {
        Schedule {
            items: Vec::new(alloc),
        }
    }

    /// Appends a line.
    pub fn push(&mut self, item: Line) -> Result<(), Memory>
        ensures ok { OnOk result (self.new ≡ self.old ++ item ∷ []) }
        ensures err { OnErr result (self.new ≡ self.old) }
    {
        self.items.push(item)?;
        Ok(())
    }

    pub fn as_slice(&self) -> &[Line]
        ensures { result.now ≡ self.now }
    {
        self.items.as_slice()
    }
}
