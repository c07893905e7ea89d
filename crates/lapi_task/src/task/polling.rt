//! A poll: what was issued is copied, and what the windows allow is sent.
ghost use Rattle.std.specs.Prelude.{◌≡◌, ℕ, ◌<◌, ◌≤◌, ◌++◌, false, length, set, OnOk};
ghost use Rattle.lapi_base.specs.declared.rule.Rules.{Rules};
ghost use Rattle.lapi_base.specs.declared.script.Script.{Script};
ghost use Rattle.lapi_base.specs.Record.Wires.{Run};
ghost use Rattle.lapi_base.specs.Record.Acts.{poll};
ghost use Rattle.lapi_task.specs.HasEffect.{IsAt, IsAtSome, Performs};
ghost use Rattle.lapi_task.specs.Copies.{AllCopied, AllSent, packets_now};
ghost use Rattle.lapi_task.specs.Acknowledging.{MayAnswer, MayPay, owed_to, owed_below};
ghost use Rattle.lapi_task.specs.Alone.{owes};
ghost use Rattle.lapi_task.specs.Sends.{entries_of};

use crate::outcome::Outcome;
use crate::task::Task;
use lapi_base::{Entries, Events, Memory};
use lapi_link::Sender;
use std::alloc::Global;

impl Task {
    /// Copies what was issued, and sends what the windows allow.
    pub fn poll(&mut self, alloc: Global, out: &mut Outcome) -> Result<(), Memory>
        requires { IsAtSome self.old }
        ensures { OnOk result (Performs poll self.old self.new out.old out.new) }
    {
        self.copy_all(alloc, &mut out.events)?;
        send_all(&mut self.senders, self.sizes.tasks, &mut out.entries)?;
        self.pay_all(alloc, &mut out.entries)
    }

    /// Sends the acknowledgements that are owed.
    fn pay_all(&mut self, alloc: Global, entries: &mut Entries) -> Result<(), Memory>
        requires may { MayPay self.old }
        ensures entries { OnOk result (entries.new ≡ entries.old ++ owed_below self.old self.old.sizes.tasks) }
        ensures paid { OnOk result ((b : ℕ) → owes self.new b ≡ false) }
        ensures count { length self.new.owed.items ≡ length self.old.owed.items }
        ensures rest { self.new ≡ record self.old { owed = self.new.owed } }
    {
        for to in 0..self.sizes.tasks {
            self.pay(alloc, to, entries)?;
        }
        Ok(())
    }

    /// Sends the acknowledgement that task `to` is owed, if it is owed one.
    fn pay(&mut self, alloc: Global, to: u32, entries: &mut Entries) -> Result<(), Memory>
        requires may { MayAnswer self.old to }
        requires there { to < length self.old.owed.items }
        ensures entries { OnOk result (entries.new ≡ entries.old ++ owed_to self.old to) }
        ensures paid { OnOk result (self.new.owed.items ≡ set self.old.owed.items to false) }
        ensures count { length self.new.owed.items ≡ length self.old.owed.items }
        ensures rest { self.new ≡ record self.old { owed = self.new.owed } }
    {
        if !self.owed[to as usize] {
            return Ok(());
        }
        self.acknowledge(alloc, to, entries)?;
        self.owed[to as usize] = false;
        Ok(())
    }

    /// Copies the data of all statements whose data wait.
    fn copy_all(&mut self, alloc: Global, events: &mut Events) -> Result<(), Memory>
        requires { IsAtSome self.old }
        ensures { OnOk result ((script : Script) (rules : Rules) (t : ℕ) (r : Run) → IsAt script rules t self.old r
            → AllCopied script rules t r self.new events.old events.new) }
    {
        for _copy in 0..self.state.uncopied.len() {
            self.copy_next(alloc, events)?;
        }
        Ok(())
    }
}

/// Sends on the first `count` links what their windows allow.
fn send_all(senders: &mut Vec<Sender>, count: u32, entries: &mut Entries) -> Result<(), Memory>
    requires { count ≤ length senders.old.items }
    ensures sent { OnOk result (AllSent count senders.old.items senders.new.items) }
    ensures entries { OnOk result (entries.new ≡ entries.old ++ entries_of packets_now senders.old.items count) }
{
    for b in 0..count {
        let sender = &mut senders[b as usize];
        sender.send(b, entries)?;
    }
    Ok(())
}
