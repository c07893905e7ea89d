ghost use Rattle.std.specs.Prelude.{◌≡◌, [], ◌∷◌, ◌++◌, OnOk, OnErr};

use crate::memory::Memory;
use crate::message::MsgName;
use crate::refusal::Refusal;
use std::alloc::Global;
use std::marker::Model;

/// What happened at one moment; it happens at one task.
#[derive(Clone, Copy, Debug, Eq, PartialEq)]
pub enum Event {
    Issue {
        task: u32,
        statement: u32,
    },
    Refuse {
        task: u32,
        statement: u32,
        why: Refusal,
    },
    /// A collective call began.
    Enter {
        task: u32,
        statement: u32,
    },
    /// A wait, a fence or a collective call is over.
    Pass {
        task: u32,
        statement: u32,
    },
    /// The message's source was read.
    Copy(MsgName),
    /// The header handler answered.
    Head(MsgName),
    /// The whole message took effect where it went.
    Land(MsgName),
    /// A worker of the target began the completion handler.
    Begin {
        name: MsgName,
        task: u32,
        worker: u32,
    },
    End {
        name: MsgName,
        task: u32,
        worker: u32,
    },
}

/// Events in the order in which they happened.
#[derive(Debug, Drop)]
pub struct Events {
    items: Vec<Event>,
}

impl Model for Events {
    ghost use Rattle.std.specs.Prelude.{List};
    ghost use Rattle.lapi_base.specs.declared.event.Event.{Event};

    ghost Value = { List Event };

    ghost view = { λ list. list.items.items };
}

impl Events {
    /// The empty list, which takes no memory yet.
    pub fn new(alloc: Global) -> Events
        ensures { result ≡ [] }
    {
        Events {
            items: Vec::new(alloc),
        }
    }

    /// Appends an event.
    pub fn push(&mut self, item: Event) -> Result<(), Memory>
        ensures ok { OnOk result (self.new ≡ self.old ++ item ∷ []) }
        ensures err { OnErr result (self.new ≡ self.old) }
    {
        self.items.push(item)?;
        Ok(())
    }

    pub fn as_slice(&self) -> &[Event]
        ensures { result.now ≡ self.now }
    {
        self.items.as_slice()
    }

    /// The events as a vector, of which each can be moved out.
    pub fn into_vec(self) -> Vec<Event>
        ensures { result.items ≡ self }
    {
        self.items
    }
}
