ghost use Rattle.std.specs.Prelude.{◌≡◌, ℕ, ◌<◌, true, false, ◌∷◌, [], ◌++◌, length, map, reverse, OnOk, OnErr, IfOk, IsTrue, ◌↔◌, Some};
ghost use Rattle.lapi_base.specs.Record.Atomic.{AtomicInTime};
ghost use Rattle.lapi_base.specs.Record.Final.{is_quiet, Quiet};
ghost use Rattle.lapi_base.specs.Record.WorldView.{view_record, act_at};
ghost use Rattle.lapi_base.specs.Packet.Spelling.{spells_packet};
ghost use Rattle.lapi_base.specs.Record.Valid.{ValidScript, ValidSchedule};
ghost use Rattle.lapi_base.specs.Packet.PacketBytes as written;
ghost use Rattle.lapi_handlers.specs.Handlers.{rules_of};
ghost use Rattle.lapi_task.specs.HasEffect.{IsAt};
ghost use Rattle.lapi_world.specs.Settled.{IsSettled};
ghost use Rattle.lapi_world.specs.Jobs.{BeginsAt, EndsAt, HandsOut, IsBeginLine, IsEndWith, IsPlainLine, begun_reply};

use crate::network::Network;
use lapi_base::{
    Act, Bytes, Event, Line, Memory, Numbers, Replies, Reply, Rules, Schedule, Script,
};
use lapi_handlers::{Begun, Finished, Handlers};
use lapi_laws::{delivered_is_final, journal_is_atomic, quiet_is_tested};
use lapi_task::Task;
use std::alloc::Global;
use std::marker::Model;

/// A script, a schedule, and what became of the lines taken so far.
///
/// Once a call has answered Memory, the world is spent: every later line answers Memory too, and of its parts
/// nothing is said but for the script, the schedule and the lines taken.
#[derive(Drop)]
pub struct World {
    script: Script,
    /// What the handlers answer.
    rules: Rules,
    schedule: Schedule,
    network: Network,
    taken: Numbers,
    replies: Replies,
    spent: bool,
}

impl Model for World {
    ghost use Rattle.lapi_base.specs.Record.WorldView.{WorldView};
    ghost use Rattle.lapi_world.specs.Stands.{IsWorld};

    ghost Value = { WorldView };

    ghost view = { λ w. record { script = w.script; rules = w.rules; schedule = w.schedule; taken = w.taken; spent = w.spent } };

    ghost invariant = { λ w. IsWorld w.script w.rules w.schedule w.network w.taken w.replies w.spent };
}

impl World {
    /// The world of a script and a schedule before the first line.
    pub fn new(
        alloc: Global,
        script: Script,
        schedule: Schedule,
        handlers: &Handlers,
    ) -> Result<World, Memory>
        requires script { ValidScript script }
        requires schedule { ValidSchedule script spells_packet schedule }
        ensures { IfOk result
            (λ w. w ≡ record { script = script; rules = rules_of handlers.now; schedule = schedule; taken = []; spent = false }) }
    {
        let rules = handlers.rules(alloc)?;
        let network = Network::new(alloc, &script, handlers.header_count())?;
        Ok(World {
            script,
            rules,
            schedule,
            network,
            taken: Numbers::new(alloc),
            replies: Replies::new(alloc),
            spent: false,
        })
    }

    /// Performs schedule line `n`, from 0, with handlers of the rules that the world was made with. A line that
    /// begins or ends a job is one for `begin` or `end`.
    pub fn line(&mut self, alloc: Global, handlers: &Handlers, n: u32) -> Result<Reply, Memory>
        requires line { n < length self.old.schedule }
        requires plain { IsPlainLine self.old.schedule n }
        requires rules { rules_of handlers.now ≡ self.old.rules }
        ensures ok { OnOk result ((self.old.spent ≡ false)
            × (self.new ≡ record self.old { taken = self.old.taken ++ n ∷ [] })) }
        ensures reply { IfOk result (λ reply. (view_record self.new).replies ≡ (view_record
            self.old).replies ++ reply ∷ []) }
        ensures err { OnErr result (self.new ≡ record self.old { spent = true }) }
    {
        if self.spent {
            return Err(Memory);
        }
        self.spent = true;
        let act = act_at(self.schedule.as_slice(), n);
        let reply = self.network.perform(alloc, &self.script, handlers, act)?;
        self.replies.push(reply)?;
        self.taken.push(n)?;
        self.spent = false;
        Ok(reply)
    }

    /// Performs schedule line `n`, a Begin. A job that begins is handed out: the caller gives it to its completion
    /// handler, and what that makes of it to the next End of the same worker.
    pub fn begin(&mut self, alloc: Global, n: u32) -> Result<Begun, Memory>
        requires line { IsBeginLine self.old.schedule n }
        ensures ok { OnOk result ((self.old.spent ≡ false)
            × (self.new ≡ record self.old { taken = self.old.taken ++ n ∷ [] })) }
        ensures reply { IfOk result (λ begun. (view_record self.new).replies ≡ (view_record
            self.old).replies ++ begun_reply begun ∷ []) }
        ensures job { IfOk result (HandsOut self.new n) }
        ensures err { OnErr result (self.new ≡ record self.old { spent = true }) }
    {
        if self.spent {
            return Err(Memory);
        }
        self.spent = true;
        let (task, worker) = begin_at(self.schedule.as_slice(), n);
        let begun = self.network.begin(alloc, &self.script, task, worker)?;
        self.replies.push(reply_of(&begun))?;
        self.taken.push(n)?;
        self.spent = false;
        Ok(begun)
    }

    /// Performs schedule line `n`, an End, with what became of the job that its worker runs, if it runs one.
    pub fn end(
        &mut self,
        alloc: Global,
        n: u32,
        finished: Option<Finished>,
    ) -> Result<Reply, Memory>
        requires line { IsEndWith self.old n finished }
        ensures ok { OnOk result ((self.old.spent ≡ false)
            × (self.new ≡ record self.old { taken = self.old.taken ++ n ∷ [] })) }
        ensures reply { IfOk result (λ reply. (view_record self.new).replies ≡ (view_record
            self.old).replies ++ reply ∷ []) }
        ensures err { OnErr result (self.new ≡ record self.old { spent = true }) }
    {
        if self.spent {
            return Err(Memory);
        }
        self.spent = true;
        let (task, worker) = end_at(self.schedule.as_slice(), n);
        let reply = self
            .network
            .end(alloc, &self.script, task, worker, finished)?;
        self.replies.push(reply)?;
        self.taken.push(n)?;
        self.spent = false;
        Ok(reply)
    }

    pub fn script(&self) -> &Script
        ensures { result.now ≡ self.now.script }
    {
        &self.script
    }

    pub fn schedule(&self) -> &[Line]
        ensures same { result.now ≡ self.now.schedule }
        ensures valid { ValidScript self.now.script × ValidSchedule self.now.script spells_packet self.now.schedule }
    {
        self.schedule.as_slice()
    }

    /// The numbers of the lines performed, in order.
    pub fn taken(&self) -> &[u32]
        ensures { result.now ≡ self.now.taken }
    {
        self.taken.as_slice()
    }

    /// The reply of each line taken.
    pub fn replies(&self) -> &[Reply]
        ensures { self.now.spent ≡ false → result.now ≡ (view_record self.now).replies }
    {
        self.replies.as_slice()
    }

    /// What happened so far, in order.
    pub fn journal(&self) -> &[Event]
        ensures same { self.now.spent ≡ false → result.now ≡ reverse (view_record self.now).journal }
        ensures atomic { self.now.spent ≡ false → AtomicInTime self.now.script self.now.rules result.now }
    {
        journal_is_atomic();
        self.network.journal()
    }

    /// The entries on the wire from task `a` to task `b`, in order.
    pub fn wire(&self, a: u32, b: u32) -> &[Bytes]
        requires a { a < self.now.script.tasks }
        requires b { b < self.now.script.tasks }
        ensures { self.now.spent ≡ false → result.now ≡ map written.packet ((view_record self.now).wire a b) }
    {
        self.network.entries(self.script.tasks, a, b)
    }

    /// Task `t`, as the lines taken left it.
    pub fn task(&self, t: u32) -> &Task
        requires { t < self.now.script.tasks }
        ensures { self.now.spent ≡ false → IsAt self.now.script self.now.rules t result.now (view_record self.now) }
    {
        self.network.task(t)
    }

    /// Whether everything sent is acknowledged, no job waits or runs, and nothing is left to copy or to send. Then
    /// everything that was issued is complete, and stays so until a task takes its next step.
    pub fn quiet(&self) -> bool
        ensures tested { self.now.spent ≡ false
            → result ≡ is_quiet self.now.script self.now.rules (view_record self.now) }
        ensures quiet { self.now.spent ≡ false
            → IsTrue result ↔ Quiet self.now.script self.now.rules (view_record self.now) }
        ensures settled { self.now.spent ≡ false → IsTrue result
            → IsSettled self.now.script self.now.rules (view_record self.now) }
    {
        quiet_is_tested();
        delivered_is_final();
        self.network.is_quiet()
    }

    /// Whether an earlier call answered Memory.
    pub fn spent(&self) -> bool
        ensures { result ≡ self.now.spent }
    {
        self.spent
    }
}

fn act_at(schedule: &[Line], n: u32) -> &Act
    requires { n < length schedule.now }
    ensures { act_at schedule.now n ≡ Some result.now }
{
    &schedule[n as usize].act
}

/// The task and the worker of line `n`, a Begin.
fn begin_at(schedule: &[Line], n: u32) -> (u32, u32)
    requires { IsBeginLine schedule.now n }
    ensures { BeginsAt schedule.now n result.0 result.1 }
{
    let Act::Begin { task, worker } = schedule[n as usize].act else {
        unreachable!()
    };
    (task, worker)
}

/// The task and the worker of line `n`, an End.
fn end_at(schedule: &[Line], n: u32) -> (u32, u32)
    requires { (t w : ℕ) × EndsAt schedule.now n t w }
    ensures { EndsAt schedule.now n result.0 result.1 }
{
    let Act::End { task, worker } = schedule[n as usize].act else {
        unreachable!()
    };
    (task, worker)
}

/// What a Begin replies.
fn reply_of(begun: &Begun) -> Reply
    ensures { result ≡ begun_reply begun.now }
{
    match begun {
        Begun::Job(_) => Reply::Did,
        Begun::Idle => Reply::Idle,
        Begun::Busy => Reply::Busy,
    }
}
