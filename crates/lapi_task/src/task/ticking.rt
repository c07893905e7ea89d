//! What a task sends again, and whether it has nothing to send and nothing to wait for.
ghost use Rattle.std.specs.Prelude.{◌≡◌, ℕ, OnOk};
ghost use Rattle.lapi_base.specs.declared.rule.Rules.{Rules};
ghost use Rattle.lapi_base.specs.declared.script.Script.{Script};
ghost use Rattle.lapi_base.specs.Record.Wires.{Run};
ghost use Rattle.lapi_base.specs.Record.Acts.{tick};
ghost use Rattle.lapi_task.specs.HasEffect.{IsAt, IsAtSome, Performs};
ghost use Rattle.lapi_task.specs.Still.{is_still};

use crate::outcome::Outcome;
use crate::task::Task;
use lapi_base::Memory;
use std::alloc::Global;

impl Task {
    /// Sends again what was sent and is not acknowledged.
    pub fn tick(&mut self, alloc: Global, out: &mut Outcome) -> Result<(), Memory>
        requires { IsAtSome self.old }
        ensures { OnOk result (Performs tick self.old self.new out.old out.new) }
    {
        for to in 0..self.sizes.tasks {
            self.senders[to as usize].resend(alloc, to, &mut out.entries)?;
        }
        Ok(())
    }

    /// Whether all that was sent is acknowledged, no job waits or runs, nothing is owed, and a poll would add nothing.
    pub fn still(&self) -> bool
        ensures { (script : Script) (rules : Rules) (t : ℕ) (r : Run) → IsAt script rules t self.now r
            → result ≡ is_still script rules r t }
    {
        self.state.is_free()
            && self.senders.iter().all(|sender| sender.is_settled())
            && !self.owed.contains(&true)
    }
}
