//! How a task answers what it took, and what it notes of the answers of others.
ghost use Rattle.std.specs.Prelude.{◌≡◌, ℕ, ◌<◌, ◌^◌, true, cond, [], ◌∷◌, ◌++◌, List, OnOk, length, set, slice_get, Some};
ghost use Rattle.lapi_base.specs.declared.rule.Rules.{Rules};
ghost use Rattle.lapi_base.specs.declared.script.Script.{Script};
ghost use Rattle.lapi_base.specs.declared.packet.Packet.{Packet as ThePacket};
ghost use Rattle.lapi_base.specs.declared.packet.Packet.TheVariants.{Ack};
ghost use Rattle.lapi_base.specs.Packet.Layout.{layout_of, waits_for_poll};
ghost use Rattle.lapi_base.specs.Record.Wires.{Run};
ghost use Rattle.lapi_base.specs.Record.Acts.{deliver};
ghost use Rattle.lapi_task.specs.declared.outcome.Outcome.{Outcome};
ghost use Rattle.lapi_task.specs.Acknowledging.{MayAnswer, HasTaken, answer};
ghost use Rattle.lapi_task.specs.Alone.{answer_now, answer_at_once};
ghost use Rattle.lapi_task.specs.HasEffect.{IsAt, IsAtSome, HasEffect};
ghost use Rattle.lapi_task.specs.MayReceive.{MayReceive};

use crate::packet::spelled;
use crate::task::Task;
use lapi_base::{Entries, Memory, Packet, WireEntry, waits_for_poll};
use std::alloc::Global;

impl Task {
    /// Tells task `from` what was taken of what it sent.
    pub(super) fn acknowledge(
        &self,
        alloc: Global,
        from: u32,
        entries: &mut Entries,
    ) -> Result<(), Memory>
        requires { MayAnswer self.now from }
        ensures alone { OnOk result (entries.new ≡ entries.old ++ answer_now self.now from) }
        ensures packets { OnOk result ((script : Script) (t : ℕ) (ps : List ThePacket)
            → HasTaken script t self.now from ps → entries.new ≡ entries.old ++ answer script ps from t ∷ []) }
    {
        let (base, bits) = self.receivers[from as usize].ack();
        let packet = acknowledgement(self.sizes.layout, self.state.number, from, base, bits);
        let bytes = spelled(alloc, &packet)?;
        entries.push(WireEntry { to: from, bytes })
    }

    /// Tells task `from` what was taken of what it sent, at once or by the next poll.
    pub(super) fn tell(
        &mut self,
        alloc: Global,
        from: u32,
        entries: &mut Entries,
    ) -> Result<(), Memory>
        requires may { MayAnswer self.old from }
        requires there { from < length self.old.owed.items }
        ensures alone { OnOk result (entries.new ≡ entries.old ++ answer_at_once self.old from) }
        ensures packets { OnOk result ((script : Script) (t : ℕ) (ps : List ThePacket)
            → HasTaken script t self.old from ps → entries.new ≡ entries.old
            ++ cond (waits_for_poll (layout_of script.layout)) [] (answer script ps from t ∷ [])) }
        ensures owed { self.new.owed.items ≡ cond (waits_for_poll (layout_of self.old.sizes.layout))
            (set self.old.owed.items from true) self.old.owed.items }
        ensures rest { self.new ≡ record self.old { owed = self.new.owed } }
    {
        if waits_for_poll(self.sizes.layout) {
            self.owed[from as usize] = true;
            return Ok(());
        }
        self.acknowledge(alloc, from, entries)
    }

    /// Notes an acknowledgement that came from task `from`.
    pub(super) fn acknowledged(&mut self, from: u32, base: u32, bits: u64)
        requires stands { IsAtSome self.old }
        requires may { (l : ℕ) × (x : ℕ) × (y : ℕ) × MayReceive self.old from (Ack l x y base bits) }
        ensures { (script : Script) (rules : Rules) (t k l x y : ℕ) (r : Run) (out : Outcome)
            → IsAt script rules t self.old r → from < script.tasks
            → slice_get (r.wire from t) k ≡ Some (Ack l x y base bits)
            → HasEffect script rules t r (deliver script rules r from t k) self.new out out }
    {
        let tags = self.senders[from as usize].acked(base, bits);
        self.unfinished.acknowledged(tags.as_slice());
    }
}

/// The packet by which one task tells another what it has taken.
fn acknowledgement(layout: u32, from: u32, to: u32, base: u32, bits: u64) -> Packet
    ensures packet { result ≡ Ack layout from to base bits }
    ensures small { (base < 2 ^ 32) × (bits < 2 ^ 64) }
{
    Packet::Ack {
        layout,
        from,
        to,
        base,
        bits,
    }
}
