//! The lines of a schedule in one lane, as they are written.

ghost use Rattle.std.specs.Prelude.{◌≡◌, ◌++◌, [], ◌∷◌, map, OnOk};
ghost use Rattle.std.specs.List.{AllByRecursion};
ghost use Rattle.lapi_base.specs.declared.schedule.Line.{Line};

use lapi_base::{Act, Line, Memory, Schedule};
use std::alloc::Global;
use std::marker::Model;

/// Lines of lane 0, which are seen as what they do.
#[derive(Debug, Drop)]
pub struct Lines {
    schedule: Schedule,
}

impl Model for Lines {
    ghost use Rattle.std.specs.Prelude.{◌≡◌, List, map};
    ghost use Rattle.std.specs.List.{AllByRecursion};
    ghost use Rattle.lapi_base.specs.declared.schedule.Act.{Act};
    ghost use Rattle.lapi_base.specs.declared.schedule.Line.{Line};

    ghost Value = { List Act };

    ghost view = { λ lines. map (λ (line : Line). line.act) lines.schedule };

    ghost invariant = { λ lines. AllByRecursion (λ (line : Line). line.lane ≡ 0) lines.schedule };
}

impl Lines {
    /// No lines, which take no memory yet.
    pub fn new(alloc: Global) -> Lines
        ensures { result ≡ [] }
    {
        Lines {
            schedule: Schedule::new(alloc),
        }
    }

    /// Appends a line.
    pub fn push(&mut self, act: Act) -> Result<(), Memory>
        ensures { OnOk result (self.new ≡ self.old ++ act ∷ []) }
    {
        self.schedule.push(Line { lane: 0, act })
    }

    /// The schedule of these lines.
    pub fn into_schedule(self) -> Schedule
        ensures acts { map (λ (line : Line). line.act) result ≡ self }
        ensures lane { AllByRecursion (λ (line : Line). line.lane ≡ 0) result }
    {
        self.schedule
    }
}
