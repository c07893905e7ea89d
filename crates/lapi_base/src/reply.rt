ghost use Rattle.std.specs.Prelude.{◌≡◌, [], ◌∷◌, ◌++◌, OnOk, OnErr};

use crate::memory::Memory;
use std::alloc::Global;
use std::marker::Model;

/// Why bytes are no packet.
#[derive(Clone, Copy, Debug, Eq, PartialEq)]
pub enum Reason {
    Short,
    Long,
    Magic,
    Version,
    Kind,
    Task,
    Field,
    NotCanonical,
}

/// Bytes that are no packet: the place of the first fault, from 0, and its reason.
#[derive(Clone, Copy, Debug, Eq, PartialEq)]
pub struct Bad {
    pub place: u32,
    pub reason: Reason,
}

/// What a schedule line answers.
#[derive(Clone, Copy, Debug, Eq, PartialEq)]
pub enum Reply {
    Did,
    /// The next statement waits.
    Blocked,
    /// The wire has no such entry.
    Absent,
    /// There is nothing to do.
    Idle,
    /// The worker runs a job.
    Busy,
    Bad(Bad),
}

/// The replies of the lines taken, in order.
#[derive(Debug, Drop)]
pub struct Replies {
    items: Vec<Reply>,
}

impl Model for Replies {
    ghost use Rattle.std.specs.Prelude.{List};
    ghost use Rattle.lapi_base.specs.declared.reply.Reply.{Reply};

    ghost Value = { List Reply };

    ghost view = { λ list. list.items.items };
}

impl Replies {
    /// The empty list, which takes no memory yet.
    pub fn new(alloc: Global) -> Replies
        ensures { result ≡ [] }
    {
        Replies {
            items: Vec::new(alloc),
        }
    }

    /// Appends a reply.
    pub fn push(&mut self, item: Reply) -> Result<(), Memory>
        ensures ok { OnOk result (self.new ≡ self.old ++ item ∷ []) }
        ensures err { OnErr result (self.new ≡ self.old) }
    {
        self.items.push(item)?;
        Ok(())
    }

    pub fn as_slice(&self) -> &[Reply]
        ensures { result.now ≡ self.now }
    {
        self.items.as_slice()
    }
}
