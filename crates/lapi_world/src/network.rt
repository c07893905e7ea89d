ghost use Rattle.std.specs.Prelude.{◌≡◌, ◌+◌, ◌*◌, ◌<◌, ◌≤◌, true, false, [], ◌++◌, length, map, replicate, slice_get, Some, Ok, OnOk, IfOk};
ghost use Rattle.std.specs.List.{AllByRecursion};
ghost use Rattle.lapi_base.specs.declared.rule.Rules.{Rules};
ghost use Rattle.lapi_base.specs.declared.script.Script.{Script};
ghost use Rattle.lapi_base.specs.declared.schedule.Act.TheVariants.{Step, Poll, Tick, Deliver, Cut, Inject, Begin, End};
ghost use Rattle.lapi_base.specs.declared.wire.WireEntry.{WireEntry};
ghost use Rattle.lapi_base.specs.Record.Final.{is_quiet};
ghost use Rattle.lapi_base.specs.Record.Wires.{Run, start};
ghost use Rattle.lapi_base.specs.Record.WorldView.{IsRecord};
ghost use Rattle.lapi_base.specs.Packet.Spelling.{spells_packet, refusal};
ghost use Rattle.lapi_base.specs.Record.Valid.{ValidAct, ValidScript};
ghost use Rattle.lapi_base.specs.Packet.PacketBytes as written;
ghost use Rattle.lapi_handlers.specs.Handlers.{rules_of};
ghost use Rattle.lapi_task.specs.Apart.{TasksStayApart};
ghost use Rattle.lapi_task.specs.Working.{IsBegun};
ghost use Rattle.lapi_world.specs.Stands.{HaveRules, Stands, StandsForOne, TasksStand};
ghost use Rattle.lapi_world.specs.Grows.{KeepsRecord, Answers, ArePut, IsAdded};
ghost use Rattle.lapi_world.specs.Jobs.{begun_reply, is_work};
ghost use Rattle.lapi_world.specs.Ends.{AnswersEnd, IsOfSome, KeepsEnd};

use crate::wire::Wire;
use lapi_base::{Act, Bytes, Entries, Event, Events, Memory, Reply, Script, WireEntry};
use lapi_handlers::{Begun, Finished, Handlers};
use lapi_packet::spelling_laws;
use lapi_task::{Outcome, Received, Task, tasks_stay_apart, wires_may_come};
use std::alloc::Global;

/// The tasks, the wires between them, and what happened so far.
#[derive(Drop)]
pub struct Network {
    tasks: Vec<Task>,
    /// The wire from `a` to `b` stands at `a * tasks + b`.
    wires: Vec<Wire>,
    journal: Events,
}

impl Network {
    /// Nothing happened yet.
    pub fn new(alloc: Global, script: &Script, header_count: u32) -> Result<Network, Memory>
        requires { ValidScript script.now }
        ensures { IfOk result (λ network. (rules : Rules) → HaveRules rules header_count
            → Stands script.now rules network start) }
    {
        let tasks = new_tasks(alloc, script, header_count)?;
        let wires = new_wires(alloc, script.tasks * script.tasks)?;
        Ok(Network {
            tasks,
            wires,
            journal: Events::new(alloc),
        })
    }

    pub fn journal(&self) -> &[Event]
        ensures { result.now ≡ self.now.journal }
    {
        self.journal.as_slice()
    }

    pub fn task(&self, t: u32) -> &Task
        requires { t < length self.now.tasks.items }
        ensures { slice_get self.now.tasks.items t ≡ Some result.now }
    {
        &self.tasks[t as usize]
    }

    /// What stands on the wire from `a` to `b`.
    pub fn entries(&self, tasks: u32, a: u32, b: u32) -> &[Bytes]
        requires { (a < tasks) × (b < tasks) × (tasks ≤ 8) }
        ensures { (script : Script) (rules : Rules) (r : Run) → script.tasks ≡ tasks
            → Stands script rules self.now r → result.now ≡ map written.packet (r.wire a b) }
    {
        match self.wires.as_slice().get(place(tasks, a, b)) {
            Some(wire) => wire.entries(),
            None => &[],
        }
    }

    /// What a schedule line does, one that neither begins nor ends a job.
    pub fn perform(
        &mut self,
        alloc: Global,
        script: &Script,
        handlers: &Handlers,
        act: &Act,
    ) -> Result<Reply, Memory>
        requires script { ValidScript script.now }
        requires act { ValidAct script.now spells_packet act.now }
        requires plain { is_work act.now ≡ false }
        requires stands { StandsForOne script.now (rules_of handlers.now) self.old }
        ensures ok { OnOk result (KeepsRecord script.now (rules_of handlers.now) act.now self.old self.new) }
        ensures reply { IfOk result (Answers script.now (rules_of handlers.now) act.now self.old) }
        ensures count { length self.new.tasks.items ≡ length self.old.tasks.items }
    {
        match act {
            Act::Step(t) => self.step(alloc, script, *t),
            Act::Poll(t) => self.poll(alloc, script, *t),
            Act::Tick(t) => self.tick(alloc, script, *t),
            Act::Deliver { a, b, k } => self.deliver(alloc, script, handlers, *a, *b, *k),
            Act::Cut { a, b, k, n } => self.cut(alloc, script, handlers, *a, *b, *k, *n),
            Act::Inject { a, b, bytes } => {
                self.inject(alloc, script, handlers, *a, *b, bytes.as_slice())
            }
            Act::Begin { .. } | Act::End { .. } => unreachable!(),
        }
    }

    fn step(&mut self, alloc: Global, script: &Script, t: u32) -> Result<Reply, Memory>
        requires script { ValidScript script.now }
        requires task { t < script.now.tasks }
        requires stands { (rules : Rules) × StandsForOne script.now rules self.old }
        ensures ok { OnOk result ((rules : Rules) → KeepsRecord script.now rules (Step t) self.old self.new) }
        ensures reply { IfOk result (λ reply. (rules : Rules) → Answers script.now rules (Step t) self.old reply) }
        ensures count { length self.new.tasks.items ≡ length self.old.tasks.items }
    {
        let mut out = Outcome::new(alloc);
        let task = &mut self.tasks[t as usize];
        let reply = task.step(&mut out)?;
        self.add(script.tasks, t, out)?;
        Ok(reply)
    }

    fn poll(&mut self, alloc: Global, script: &Script, t: u32) -> Result<Reply, Memory>
        requires script { ValidScript script.now }
        requires task { t < script.now.tasks }
        requires stands { (rules : Rules) × StandsForOne script.now rules self.old }
        ensures ok { OnOk result ((rules : Rules) → KeepsRecord script.now rules (Poll t) self.old self.new) }
        ensures reply { IfOk result (λ reply. (rules : Rules) → Answers script.now rules (Poll t) self.old reply) }
        ensures count { length self.new.tasks.items ≡ length self.old.tasks.items }
    {
        let mut out = Outcome::new(alloc);
        let task = &mut self.tasks[t as usize];
        task.poll(alloc, &mut out)?;
        self.add(script.tasks, t, out)?;
        Ok(Reply::Did)
    }

    fn tick(&mut self, alloc: Global, script: &Script, t: u32) -> Result<Reply, Memory>
        requires script { ValidScript script.now }
        requires task { t < script.now.tasks }
        requires stands { (rules : Rules) × StandsForOne script.now rules self.old }
        ensures ok { OnOk result ((rules : Rules) → KeepsRecord script.now rules (Tick t) self.old self.new) }
        ensures reply { IfOk result (λ reply. (rules : Rules) → Answers script.now rules (Tick t) self.old reply) }
        ensures count { length self.new.tasks.items ≡ length self.old.tasks.items }
    {
        let mut out = Outcome::new(alloc);
        let task = &mut self.tasks[t as usize];
        task.tick(alloc, &mut out)?;
        self.add(script.tasks, t, out)?;
        Ok(Reply::Did)
    }

    /// Hands entry `k` of wire (`a`, `b`) to task `b`.
    fn deliver(
        &mut self,
        alloc: Global,
        script: &Script,
        handlers: &Handlers,
        a: u32,
        b: u32,
        k: u32,
    ) -> Result<Reply, Memory>
        requires script { ValidScript script.now }
        requires tasks { (a < script.now.tasks) × (b < script.now.tasks) }
        requires stands { StandsForOne script.now (rules_of handlers.now) self.old }
        ensures ok { OnOk result (KeepsRecord script.now (rules_of handlers.now) (Deliver a b k) self.old self.new) }
        ensures reply { IfOk result (Answers script.now (rules_of handlers.now) (Deliver a b k) self.old) }
        ensures count { length self.new.tasks.items ≡ length self.old.tasks.items }
    {
        let wire = &self.wires[place(script.tasks, a, b)];
        let Some(entry) = wire.entry(k) else {
            return Ok(Reply::Absent);
        };
        wires_may_come();
        let mut out = Outcome::new(alloc);
        let task = &mut self.tasks[b as usize];
        task.receive(alloc, a, entry, handlers, &mut out)?;
        self.add(script.tasks, b, out)?;
        Ok(Reply::Did)
    }

    /// Hands the first `n` bytes of entry `k` of wire (`a`, `b`) to task `b`, which refuses them: they are not the whole.
    fn cut(
        &mut self,
        alloc: Global,
        script: &Script,
        handlers: &Handlers,
        a: u32,
        b: u32,
        k: u32,
        n: u32,
    ) -> Result<Reply, Memory>
        requires script { ValidScript script.now }
        requires tasks { (a < script.now.tasks) × (b < script.now.tasks) }
        requires stands { StandsForOne script.now (rules_of handlers.now) self.old }
        ensures ok { OnOk result (KeepsRecord script.now (rules_of handlers.now) (Cut a b k n) self.old self.new) }
        ensures reply { IfOk result (Answers script.now (rules_of handlers.now) (Cut a b k n) self.old) }
        ensures count { length self.new.tasks.items ≡ length self.old.tasks.items }
    {
        let wire = &self.wires[place(script.tasks, a, b)];
        let Some(entry) = wire.entry(k) else {
            return Ok(Reply::Absent);
        };
        if n as usize >= entry.len() {
            return Ok(Reply::Absent);
        }
        spelling_laws();
        let (front, _) = entry.split_at(n as usize);
        refuse(&mut self.tasks[b as usize], alloc, a, front, handlers)
    }

    /// Hands bytes that spell no packet to task `b`, as if from task `a`.
    fn inject(
        &mut self,
        alloc: Global,
        script: &Script,
        handlers: &Handlers,
        a: u32,
        b: u32,
        bytes: &[u8],
    ) -> Result<Reply, Memory>
        requires script { ValidScript script.now }
        requires tasks { (a < script.now.tasks) × (b < script.now.tasks) }
        requires bytes { spells_packet bytes.now ≡ false }
        requires stands { StandsForOne script.now (rules_of handlers.now) self.old }
        ensures ok { OnOk result (KeepsRecord script.now (rules_of handlers.now) (Inject a b bytes.now) self.old self.new) }
        ensures reply { IfOk result (Answers script.now (rules_of handlers.now) (Inject a b bytes.now) self.old) }
        ensures count { length self.new.tasks.items ≡ length self.old.tasks.items }
    {
        refuse(&mut self.tasks[b as usize], alloc, a, bytes, handlers)
    }

    /// A worker of task `t` begins the oldest job that waits there.
    pub fn begin(
        &mut self,
        alloc: Global,
        script: &Script,
        t: u32,
        worker: u32,
    ) -> Result<Begun, Memory>
        requires script { ValidScript script.now }
        requires place { (t < script.now.tasks) × (worker < script.now.workers) }
        requires stands { (rules : Rules) × StandsForOne script.now rules self.old }
        ensures ok { OnOk result ((rules : Rules) → KeepsRecord script.now rules (Begin t worker) self.old self.new) }
        ensures reply { IfOk result (λ begun. (rules : Rules)
            → Answers script.now rules (Begin t worker) self.old (begun_reply begun)) }
        ensures job { IfOk result (λ begun. (rules : Rules) (r : Run) → IsRecord script.now rules r
            → Stands script.now rules self.old r → IsBegun script.now rules t worker r begun) }
        ensures count { length self.new.tasks.items ≡ length self.old.tasks.items }
    {
        let mut out = Outcome::new(alloc);
        let task = &mut self.tasks[t as usize];
        let begun = task.begin(alloc, worker, &mut out)?;
        self.add(script.tasks, t, out)?;
        Ok(begun)
    }

    /// A worker of task `t` ends its job, or is idle where it has none.
    pub fn end(
        &mut self,
        alloc: Global,
        script: &Script,
        t: u32,
        worker: u32,
        finished: Option<Finished>,
    ) -> Result<Reply, Memory>
        requires script { ValidScript script.now }
        requires place { (t < script.now.tasks) × (worker < script.now.workers) }
        requires finished { IsOfSome script.now t worker finished self.old }
        ensures ok { OnOk result (KeepsEnd script.now t worker finished self.old self.new) }
        ensures reply { IfOk result (AnswersEnd script.now t worker finished self.old) }
        ensures count { length self.new.tasks.items ≡ length self.old.tasks.items }
    {
        let Some(finished) = finished else {
            return Ok(Reply::Idle);
        };
        let mut out = Outcome::new(alloc);
        let task = &mut self.tasks[t as usize];
        task.end(alloc, finished, &mut out)?;
        self.add(script.tasks, t, out)?;
        Ok(Reply::Did)
    }

    /// Whether every task is still.
    pub fn is_quiet(&self) -> bool
        ensures { (script : Script) (rules : Rules) (r : Run) → IsRecord script rules r
            → Stands script rules self.now r → result ≡ is_quiet script rules r }
    {
        for task in &self.tasks {
            if !task.still() {
                return false;
            }
        }
        true
    }

    /// Adds what task `t` did.
    fn add(&mut self, tasks: u32, t: u32, out: Outcome) -> Result<(), Memory>
        requires known { (t < tasks) × (tasks ≤ 8) }
        requires wires { length self.old.wires.items ≡ tasks * tasks }
        requires ends { AllByRecursion (λ (e : WireEntry). e.to < tasks) out.entries }
        ensures ok { OnOk result (IsAdded tasks t out self.old self.new) }
        ensures tasks { self.new.tasks.items ≡ self.old.tasks.items }
        ensures apart { TasksStayApart }
    {
        tasks_stay_apart();
        let Outcome { events, entries } = out;
        append(&mut self.journal, &events)?;
        put_all(&mut self.wires, tasks, t, entries)
    }
}

fn append(journal: &mut Events, events: &Events) -> Result<(), Memory>
    ensures { OnOk result (journal.new ≡ journal.old ++ events.now) }
{
    for event in events.as_slice() {
        journal.push(*event)?;
    }
    Ok(())
}

/// Hands bytes that spell no packet to a task, which stays as it is: the reply says where they fail, and why.
fn refuse(
    task: &mut Task,
    alloc: Global,
    from: u32,
    bytes: &[u8],
    handlers: &Handlers,
) -> Result<Reply, Memory>
    requires { spells_packet bytes.now ≡ false }
    ensures { (result ≡ Ok (Reply.Bad (refusal bytes.now))) × (task.new ≡ task.old) }
{
    spelling_laws();
    let mut out = Outcome::new(alloc);
    match task.receive(alloc, from, bytes, handlers, &mut out)? {
        Received::Refused(bad) => Ok(Reply::Bad(bad)),
        Received::Data | Received::Ack => unreachable!(),
    }
}

/// Moves each entry of task `t` onto its wire.
fn put_all(wires: &mut Vec<Wire>, tasks: u32, t: u32, entries: Entries) -> Result<(), Memory>
    requires known { (t < tasks) × (tasks ≤ 8) }
    requires wires { length wires.old.items ≡ tasks * tasks }
    requires ends { AllByRecursion (λ (e : WireEntry). e.to < tasks) entries }
    ensures count { OnOk result (length wires.new.items ≡ length wires.old.items) }
    ensures put { OnOk result (ArePut tasks t entries wires.old.items wires.new.items) }
{
    for entry in entries.into_vec() {
        let wire = &mut wires[place(tasks, t, entry.to)];
        wire.put(entry.bytes)?;
    }
    Ok(())
}

fn new_tasks(alloc: Global, script: &Script, header_count: u32) -> Result<Vec<Task>, Memory>
    requires { ValidScript script.now }
    ensures count { IfOk result (λ tasks. length tasks.items ≡ script.now.tasks) }
    ensures stand { IfOk result (λ tasks. (rules : Rules) → HaveRules rules header_count
        → TasksStand script.now rules start tasks.items) }
{
    let mut tasks = Vec::new(alloc);
    for t in 0..script.tasks {
        let task = Task::new(alloc, script, t, header_count)?;
        tasks.push(task)?;
    }
    Ok(tasks)
}

fn new_wires(alloc: Global, count: u32) -> Result<Vec<Wire>, Memory>
    ensures { IfOk result (λ wires. wires.items ≡ replicate count []) }
{
    let mut wires = Vec::new(alloc);
    for _wire in 0..count {
        wires.push(Wire::new(alloc))?;
    }
    Ok(wires)
}

/// The place of the wire from `a` to `b`.
fn place(tasks: u32, a: u32, b: u32) -> usize
    requires { (a < tasks) × (b < tasks) × (tasks ≤ 8) }
    ensures { result ≡ a * tasks + b }
{
    (a * tasks + b) as usize
}
