ghost use Rattle.std.specs.Prelude.{◌≡◌, []};

use lapi_base::{Entries, Events};
use std::alloc::Global;

/// What calls of a task added: what happened, and what goes onto its wires.
#[derive(Debug, Drop)]
pub struct Outcome {
    pub events: Events,
    pub entries: Entries,
}

impl Outcome {
    /// Nothing, which takes no memory yet.
    pub fn new(alloc: Global) -> Outcome
        ensures { (result.events ≡ []) × (result.entries ≡ []) }
    {
        Outcome {
            events: Events::new(alloc),
            entries: Entries::new(alloc),
        }
    }
}
