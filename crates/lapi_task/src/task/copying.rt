//! How the messages of a task's statements are copied.
ghost use Rattle.std.specs.Prelude.{◌≡◌, ℕ, ◌∷◌, [], ◌++◌, List, OnOk, Some, true, false};
ghost use Rattle.lapi_base.specs.declared.event.Event.{Event as TheEvent};
ghost use Rattle.lapi_base.specs.declared.event.Event.TheVariants.{Copy as IsCopy};
ghost use Rattle.lapi_base.specs.declared.message.Leg.TheVariants.{Join};
ghost use Rattle.lapi_base.specs.declared.rule.Rules.{Rules};
ghost use Rattle.lapi_base.specs.declared.script.Script.{Script};
ghost use Rattle.lapi_base.specs.Packet.Layout.{unit_of};
ghost use Rattle.lapi_base.specs.Record.Names.{message};
ghost use Rattle.lapi_base.specs.Record.Operations as operations;
ghost use Rattle.lapi_base.specs.Record.Wires.{Run};
ghost use Rattle.lapi_task.specs.StandsFor.{task_unit};
ghost use Rattle.lapi_task.specs.Landed.{with_follower};
ghost use Rattle.lapi_task.specs.Copies.{IsCopyable, IsCopied, CopiesNext, CopiesNow, HasCopied, MayTell, join_of};

use crate::copy::DataCopy;
use crate::counting::announce;
use crate::follower::{follower_packet, send};
use crate::packet::fragment_count;
use crate::statement::statement_at;
use crate::task::Task;
use lapi_base::{Event, Events, Leg, Memory, MsgName};
use lapi_calls::{is_entered, join_head};
use std::alloc::Global;

impl Task {
    /// Copies the messages of the first statement that waits: its data, or the joins of a call that was entered.
    pub(super) fn copy_next(&mut self, alloc: Global, events: &mut Events) -> Result<(), Memory>
        requires { (script : Script) × (rules : Rules) × (t : ℕ) × (r : Run) × (i : ℕ)
            × (rest : List ℕ) × CopiesNext script rules t self.old r i rest }
        ensures { OnOk result ((script : Script) (rules : Rules) (t : ℕ) (r : Run) (i : ℕ) (rest : List ℕ)
            → CopiesNext script rules t self.old r i rest
            → HasCopied script rules t r i rest self.new events.old events.new) }
    {
        let Some(i) = self.state.uncopied.pop_front() else {
            unreachable!()
        };
        let Some(statement) = statement_at(&self.statements, i) else {
            unreachable!()
        };
        if is_entered(statement) {
            return self.copy_joins(alloc, i, events);
        }
        self.copy_data(alloc, i, events)
    }

    /// Copies the data of statement `i`.
    fn copy_data(&mut self, alloc: Global, i: u32, events: &mut Events) -> Result<(), Memory>
        requires { (script : Script) × (rules : Rules) × (t : ℕ) × (r : Run) × (rest : List ℕ)
            × CopiesNow script rules t self.old r i rest
            × (operations.has_join (operations.statement script t i) ≡ false) }
        ensures { OnOk result ((script : Script) (rules : Rules) (t : ℕ) (r : Run) (rest : List ℕ)
            → CopiesNow script rules t self.old r i rest
            → operations.has_join (operations.statement script t i) ≡ false
            → HasCopied script rules t r i rest self.new events.old events.new) }
    {
        let Some(statement) = statement_at(&self.statements, i) else {
            unreachable!()
        };
        let layout = self.sizes.layout;
        let number = self.state.number;
        let copy = DataCopy::of(&self.state.collective, layout, number, i, statement);
        let name = copy.message.name;
        let count = fragment_count(self.sizes.unit(), copy.message.length);
        self.copy(alloc, copy)?;
        self.unfinished.copied(i, count);
        events.push(Event::Copy(name))
    }

    /// Gives the packets their numbers on the link, and counts the copy.
    fn copy(&mut self, alloc: Global, copy: DataCopy) -> Result<(), Memory>
        requires { IsCopyable (task_unit self.old) self.old copy }
        ensures { OnOk result (IsCopied (task_unit self.old) copy self.old self.new) }
    {
        let counter = copy.counter;
        let sender = &mut self.senders[copy.message.to as usize];
        copy.append(alloc, &self.state.memory, self.sizes.unit(), sender)?;
        announce(&mut self.state.counters, counter)
    }

    /// Copies the joins of statement `i` to all other tasks.
    fn copy_joins(&mut self, alloc: Global, i: u32, events: &mut Events) -> Result<(), Memory>
        requires { (script : Script) × (rules : Rules) × (t : ℕ) × (r : Run) × (rest : List ℕ)
            × CopiesNow script rules t self.old r i rest
            × (operations.has_join (operations.statement script t i) ≡ true) }
        ensures { OnOk result ((script : Script) (rules : Rules) (t : ℕ) (r : Run) (rest : List ℕ)
            → CopiesNow script rules t self.old r i rest
            → operations.has_join (operations.statement script t i) ≡ true
            → HasCopied script rules t r i rest self.new events.old events.new) }
    {
        for d in 0..self.sizes.tasks {
            if d != self.state.number {
                self.copy_join(alloc, i, d, events)?;
            }
        }
        Ok(())
    }

    /// Copies the join of statement `i` to task `d`.
    fn copy_join(
        &mut self,
        alloc: Global,
        i: u32,
        d: u32,
        events: &mut Events,
    ) -> Result<(), Memory>
        requires { (script : Script) × (rules : Rules) × (t : ℕ) × (J : List TheEvent)
            × MayTell script rules t self.old J i d }
        ensures senders { OnOk result ((script : Script) (rules : Rules) (t : ℕ) (J : List TheEvent)
            → MayTell script rules t self.old J i d
            → self.new.senders.items
            ≡ with_follower (unit_of script) (Some (join_of script t i d)) self.old.senders.items) }
        ensures event { OnOk result (events.new
            ≡ events.old ++ IsCopy (message self.old.state.number i (Join d)) ∷ []) }
        ensures rest { self.new ≡ record self.old { senders = self.new.senders } }
    {
        let Some(statement) = statement_at(&self.statements, i) else {
            unreachable!()
        };
        let head = join_head(self.rounds[i as usize], statement);
        let number = self.state.number;
        let name = MsgName {
            origin: number,
            statement: i,
            leg: Leg::Join(d),
        };
        let layout = self.sizes.layout;
        let packet = follower_packet(layout, number, d, name, name.leg, head, 0);
        send(
            alloc,
            &mut self.senders,
            self.sizes.unit(),
            packet,
            &[],
            events,
        )
    }
}
