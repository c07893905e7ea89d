ghost use Rattle.std.specs.Prelude.{◌≡◌, [], ◌∷◌, ◌++◌, OnOk, OnErr};

use crate::bytes::Bytes;
use crate::memory::Memory;
use std::alloc::Global;
use std::marker::Model;

/// The bytes of one packet, for the wire to task `to`.
#[derive(Debug, Drop)]
pub struct WireEntry {
    pub to: u32,
    pub bytes: Bytes,
}

/// Entries in the order in which they were sent.
#[derive(Debug, Drop)]
pub struct Entries {
    items: Vec<WireEntry>,
}

impl Model for Entries {
    ghost use Rattle.std.specs.Prelude.{List};
    ghost use Rattle.lapi_base.specs.declared.wire.WireEntry.{WireEntry};

    ghost Value = { List WireEntry };

    ghost view = { λ list. list.items.items };
}

impl Entries {
    /// The empty list, which takes no memory yet.
    pub fn new(alloc: Global) -> Entries
        ensures { result ≡ [] }
    {
        Entries {
            items: Vec::new(alloc),
        }
    }

    /// Appends an entry.
    pub fn push(&mut self, item: WireEntry) -> Result<(), Memory>
        ensures ok { OnOk result (self.new ≡ self.old ++ item ∷ []) }
        ensures err { OnErr result (self.new ≡ self.old) }
    {
        self.items.push(item)?;
        Ok(())
    }

    pub fn as_slice(&self) -> &[WireEntry]
        ensures { result.now ≡ self.now }
    {
        self.items.as_slice()
    }

    /// The entries as a vector, of which each can be moved out.
    pub fn into_vec(self) -> Vec<WireEntry>
        ensures { result.items ≡ self }
    {
        self.items
    }
}
