//! How a task's workers begin and end its jobs.
ghost use Rattle.std.specs.Prelude.{◌≡◌, ℕ, ◌<◌, ◌≤◌, ◌++◌, length, Some, IfOk, OnOk};
ghost use Rattle.lapi_base.specs.declared.rule.Rules.{Rules};
ghost use Rattle.lapi_base.specs.declared.script.Script.{Script};
ghost use Rattle.lapi_base.specs.Record.Acts.{begin};
ghost use Rattle.lapi_base.specs.Record.Wires.{Run};
ghost use Rattle.lapi_task.specs.HasEffect.{IsAt, IsAtSome, Performs};
ghost use Rattle.lapi_base.specs.declared.layout.TheConstants.{PAYLOAD_ROOM};
ghost use Rattle.lapi_task.specs.Landed.{Follower, MayLeave, with_follower};
ghost use Rattle.lapi_task.specs.StandsFor.{task_unit};
ghost use Rattle.lapi_task.specs.Working.{IsBegun, MayEnd, Ends, may_answer_at, word_back, end_follower, end_events};

use crate::counting::announce;
use crate::effect::{held, take_effect};
use crate::outcome::Outcome;
use crate::task::Task;
use lapi_base::{Effect, Event, Events, Memory, MsgName, NoteOp, has_echo};
use lapi_handlers::{Begun, Finished, Job};
use lapi_jobs::Began;
use std::alloc::Global;

impl Task {
    /// A worker begins the oldest job that waits.
    pub fn begin(&mut self, alloc: Global, worker: u32, out: &mut Outcome) -> Result<Begun, Memory>
        requires record { IsAtSome self.old }
        requires worker { worker < self.old.sizes.workers }
        ensures effect { OnOk result (Performs (λ script rules r t. begin script rules r t worker)
            self.old self.new out.old out.new) }
        ensures begun { IfOk result (λ begun. (script : Script) (rules : Rules) (t : ℕ) (r : Run)
            → IsAt script rules t self.old r → IsBegun script rules t worker r begun) }
    {
        let job = match self.state.jobs.begin(worker) {
            Began::Job(job) => job,
            Began::Idle => return Ok(Begun::Idle),
            Began::Busy => return Ok(Begun::Busy),
        };
        let buffer = held(alloc, &self.state.memory, job.buffer)?;
        out.events.push(Event::Begin {
            name: job.name,
            task: self.state.number,
            worker,
        })?;
        Ok(Begun::Job(Job {
            name: job.name,
            task: self.state.number,
            worker,
            completion: job.completion,
            user: job.user,
            buffer,
        }))
    }

    /// The worker's job ends: what its completion handler answered is done.
    pub fn end(
        &mut self,
        alloc: Global,
        finished: Finished,
        out: &mut Outcome,
    ) -> Result<(), Memory>
        requires { MayEnd self.old finished }
        ensures { OnOk result (Ends finished self.old self.new out.old out.new) }
    {
        let Some(job) = self.state.jobs.end(finished.worker) else {
            unreachable!()
        };
        out.events.push(Event::End {
            name: job.name,
            task: self.state.number,
            worker: finished.worker,
        })?;
        let memory = &mut self.state.memory;
        take_effect(alloc, memory, finished.effect, &finished.buffer)?;
        announce(&mut self.state.counters, job.target_counter)?;
        let (name, counter) = (job.name, job.completion_counter);
        self.follow_end(alloc, name, finished.effect, counter, &mut out.events)
    }

    /// Sends what follows the end of the job of a message: the answer that its completion handler has for the origin,
    /// if it has one and there is a place for it, and else the notice.
    fn follow_end(
        &mut self,
        alloc: Global,
        name: MsgName,
        effect: Effect,
        cmpl: Option<u32>,
        events: &mut Events,
    ) -> Result<(), Memory>
        requires link { (name.origin < length self.old.senders.items) × (task_unit self.old ≤ PAYLOAD_ROOM) }
        requires allowed { (x : Follower) → end_follower self.old.sizes.layout self.old.state.number name
            (word_back self.old.sizes effect) cmpl ≡ Some x → MayLeave (task_unit self.old) x }
        ensures senders { OnOk result (self.new.senders.items ≡ with_follower (task_unit self.old)
            (end_follower self.old.sizes.layout self.old.state.number name (word_back self.old.sizes effect) cmpl)
            self.old.senders.items) }
        ensures events { OnOk result (events.new
            ≡ events.old ++ end_events name (word_back self.old.sizes effect) cmpl) }
        ensures rest { self.new ≡ record self.old { senders = self.new.senders } }
    {
        match self.word_back(effect) {
            Some((at, value)) => self.echo(alloc, name, at, value, cmpl, events),
            None => self.note(alloc, name.origin, name, NoteOp::Am, cmpl, events),
        }
    }

    /// The place and the word that the effect of a completion handler has for the origin, if it may answer with it.
    fn word_back(&self, effect: Effect) -> Option<(u32, u32)>
        ensures { result ≡ word_back self.now.sizes effect }
    {
        match effect {
            Effect::Answer { at, value } if self.may_answer(at) => Some((at, value)),
            Effect::Answer { .. }
            | Effect::Nothing
            | Effect::Word { .. }
            | Effect::Same { .. }
            | Effect::Reversed { .. } => None,
        }
    }

    /// Whether a completion handler may answer with a word for this place.
    fn may_answer(&self, at: u32) -> bool
        ensures { result ≡ may_answer_at self.now.sizes at }
    {
        has_echo(self.sizes.layout)
            && at % 4 == 0
            && u64::from(at) + 4 <= u64::from(self.sizes.memory)
    }
}
