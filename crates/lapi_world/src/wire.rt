ghost use Rattle.std.specs.Prelude.{◌≡◌, [], ◌∷◌, ◌++◌, option_map, slice_get, OnOk};

use lapi_base::{Bytes, Memory};
use std::alloc::Global;
use std::marker::Model;

/// The entries of one wire, in the order in which they were sent.
#[derive(Drop)]
pub struct Wire {
    entries: Vec<Bytes>,
}

impl Model for Wire {
    ghost use Rattle.std.specs.Prelude.{List, ℕ};

    ghost Value = { List (List ℕ) };

    ghost view = { λ wire. wire.entries.items };
}

impl Wire {
    /// The empty wire, which takes no memory yet.
    pub fn new(alloc: Global) -> Wire
        ensures { result ≡ [] }
    {
        Wire {
            entries: Vec::new(alloc),
        }
    }

    pub fn entries(&self) -> &[Bytes]
        ensures { result.now ≡ self.now }
    {
        self.entries.as_slice()
    }

    /// Entry `k`, from 0.
    pub fn entry(&self, k: u32) -> Option<&[u8]>
        ensures { option_map (λ e. e.now) result ≡ slice_get self.now k }
    {
        let entry = self.entries.as_slice().get(k as usize)?;
        Some(entry.as_slice())
    }

    pub fn put(&mut self, entry: Bytes) -> Result<(), Memory>
        ensures { OnOk result (self.new ≡ self.old ++ entry ∷ []) }
    {
        self.entries.push(entry)?;
        Ok(())
    }
}
