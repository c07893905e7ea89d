ghost use Rattle.std.specs.Prelude.{◌≡◌, ◌<◌, [], IfOk, OnOk};
ghost use Rattle.lapi_base.specs.Record.Below.{has_bit, every_below};
ghost use Rattle.lapi_capture.specs.Entries.{bits, with_part, differs, completes};

use crate::incoming::Incoming;
use crate::part::{MOST_FRAGMENTS, Part};
use crate::seen::Seen;
use indexmap::IndexMap;
use lapi_base::Memory;
use std::alloc::Global;
use std::marker::Model;

/// The messages of which a part came: one entry for each, found by its hash.
#[derive(Debug, Drop)]
pub(crate) struct Messages {
    seen: IndexMap<Incoming, Seen>,
}

impl Model for Messages {
    ghost use Rattle.lapi_capture.specs.Entries.{Entries};

    ghost Value = { Entries };

    ghost view = { λ messages. messages.seen.entries };
}

impl Messages {
    /// No part came.
    pub(crate) fn new(alloc: Global) -> Messages
        ensures { result ≡ [] }
    {
        Messages {
            seen: IndexMap::new(alloc),
        }
    }

    /// Whether a part has another layout or length than its message had before.
    pub(crate) fn differs(&self, part: Part) -> bool
        ensures { result ≡ differs self.now part }
    {
        match self.seen.get(&part.message) {
            None => false,
            Some(seen) => seen.layout != part.layout || seen.length != part.length,
        }
    }

    /// A part comes; whether it is the last missing one of its message.
    pub(crate) fn take(&mut self, part: Part) -> Result<bool, Memory>
        requires { part.fragment < MOST_FRAGMENTS }
        ensures entries { OnOk result (self.new ≡ with_part self.old part) }
        ensures completes { IfOk result (λ done. done ≡ completes self.old part) }
    {
        let before = self.came(part.message);
        let after = before | 1 << part.fragment;
        let seen = Seen {
            layout: part.layout,
            length: part.length,
            fragments: after,
        };
        self.seen.insert(part.message, seen)?;
        let count = part.count();
        Ok(!has_all(before, count) && has_all(after, count))
    }

    // The fragments that came of a message, as bits.
    fn came(&self, message: Incoming) -> u64
        ensures { result ≡ bits self.now message }
    {
        match self.seen.get(&message) {
            None => 0,
            Some(seen) => seen.fragments,
        }
    }
}

// Whether bit j is set for each j below a count.
#[tactic(auto, using(crate::proofs::Counts::every_by_run, lapi_base::proofs::BitLaws::run_of))]
fn has_all(bits: u64, count: u32) -> bool
    ensures { result ≡ every_below count (has_bit bits) }
{
    bits.trailing_ones() >= count
}
