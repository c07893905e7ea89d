//! What a task holds, event by event.
ghost use Rattle.std.specs.Prelude.{◌≡◌, ℕ, ◌+◌, ◌<◌, ◌≤◌, ◌^◌, ◌∷◌, [], ◌++◌, replicate, false, IsTrue, IfOk, OnOk, length};
ghost use Rattle.lapi_task.specs.Steps.{MayStep, IsRefused, IsIssued, PassesWait, IsPassed, IsEntered, IsBlocked, Advances};
ghost use Rattle.lapi_task.specs.StandsFor.{IsNewState};
ghost use Rattle.lapi_task.specs.HasJobs.{is_free};
ghost use Rattle.lapi_task.specs.HasRounds.{MayJoin};

use crate::collective::Collective;
use lapi_base::{Event, Events, Head, Memory, Refusal, Sizes, Statement};
use lapi_counters::Counters;
use lapi_jobs::Jobs;
use lapi_memory::TaskMemory;
use std::alloc::Global;
use std::collections::VecDeque;

/// What a task holds: its memory, its counters, and what became of its statements.
#[derive(Drop)]
pub struct State {
    pub number: u32,
    /// The next statement.
    pub next: u32,
    pub memory: TaskMemory,
    pub counters: Counters,
    pub reads: Vec<(u32, u64)>,
    pub refusals: Vec<(u32, Refusal)>,
    /// The statements whose messages are to be copied by the next poll, rising.
    pub uncopied: VecDeque<u32>,
    /// The jobs of its completion handlers.
    pub jobs: Jobs,
    /// Who joined which round of collective calls.
    pub collective: Collective,
}

impl State {
    /// What a task holds before its first line.
    pub fn new(alloc: Global, sizes: Sizes, number: u32) -> Result<State, Memory>
        requires memory { sizes.memory ≤ 65536 }
        requires counters { sizes.counters ≤ 256 }
        requires tasks { sizes.tasks ≤ 8 }
        ensures { IfOk result (IsNewState sizes number) }
    {
        let memory = TaskMemory::new(alloc, sizes.memory)?;
        let counters = Counters::new(alloc, sizes.counters)?;
        let jobs = Jobs::new(alloc, sizes.workers)?;
        let collective = Collective::new(alloc, sizes.tasks)?;
        Ok(State {
            number,
            next: 0,
            memory,
            counters,
            reads: Vec::new(alloc),
            refusals: Vec::new(alloc),
            uncopied: VecDeque::new(alloc),
            jobs,
            collective,
        })
    }

    /// The next statement is refused.
    pub fn refuse(&mut self, why: Refusal, events: &mut Events) -> Result<(), Memory>
        requires { self.old.next + 1 < 2 ^ 32 }
        ensures { OnOk result (IsRefused why self.old self.new events.old events.new) }
    {
        self.refusals.push((self.next, why))?;
        let event = Event::Refuse {
            task: self.number,
            statement: self.next,
            why,
        };
        self.advance(event, events)
    }

    /// The next statement takes the value from the counter, or waits; whether it did.
    pub fn wait(&mut self, counter: u32, value: u32, events: &mut Events) -> Result<bool, Memory>
        requires next { self.old.next + 1 < 2 ^ 32 }
        requires counter { counter < length self.old.counters }
        ensures passed { IfOk result (λ is_past. IsTrue is_past
            → PassesWait counter value self.old self.new events.old events.new) }
        ensures blocked { IfOk result (λ is_past. is_past ≡ false
            → IsBlocked counter value self.old self.new events.old events.new) }
    {
        if !self.counters.try_wait(counter, value) {
            return Ok(false);
        }
        let event = Event::Pass {
            task: self.number,
            statement: self.next,
        };
        self.advance(event, events)?;
        Ok(true)
    }

    /// The next statement is entered, as one of so many tasks: the head is that of the joins to the others.
    pub fn enter(&mut self, head: &Head, tasks: u32, events: &mut Events) -> Result<(), Memory>
        requires { MayJoin self.old.number head.now self.old.collective }
        ensures { OnOk result (IsEntered head.now tasks self.old self.new events.old events.new) }
    {
        self.collective.entered = true;
        self.collective.join(self.number, head);
        if tasks > 1 {
            self.uncopied.push_back(self.next)?;
        }
        events.push(Event::Enter {
            task: self.number,
            statement: self.next,
        })
    }

    /// The next statement is passed, and takes nothing.
    pub fn pass(&mut self, events: &mut Events) -> Result<(), Memory>
        requires { self.old.next + 1 < 2 ^ 32 }
        ensures { OnOk result (IsPassed self.old self.new events.old events.new) }
    {
        let event = Event::Pass {
            task: self.number,
            statement: self.next,
        };
        self.collective.entered = false;
        self.advance(event, events)
    }

    /// The next statement is issued.
    pub fn issue(&mut self, statement: &Statement, events: &mut Events) -> Result<(), Memory>
        requires next { self.old.next + 1 < 2 ^ 32 }
        requires allowed { MayStep statement.now self.old.memory self.old.counters }
        ensures { OnOk result (IsIssued statement.now self.old self.new events.old events.new) }
    {
        match statement {
            Statement::Store { at, bytes } => self.memory.write(*at, bytes.as_slice()),
            Statement::Set { counter, value } => self.counters.set(*counter, *value),
            Statement::Read { counter } => {
                let value = self.counters.get(*counter);
                self.reads.push((self.next, value))?;
            }
            Statement::Put { .. }
            | Statement::Get { .. }
            | Statement::Putv { .. }
            | Statement::Getv { .. }
            | Statement::Rmw { .. }
            | Statement::Am { .. } => self.uncopied.push_back(self.next)?,
            Statement::Wait { .. }
            | Statement::Fence
            | Statement::Gfence
            | Statement::Addr { .. } => {}
        }
        let event = Event::Issue {
            task: self.number,
            statement: self.next,
        };
        self.advance(event, events)
    }

    /// Whether no job waits or runs, and no message waits to be copied.
    pub fn is_free(&self) -> bool
        ensures { result ≡ is_free self.now }
    {
        self.jobs.queued() == 0 && self.jobs.running() == 0 && self.uncopied.is_empty()
    }

    fn advance(&mut self, event: Event, events: &mut Events) -> Result<(), Memory>
        requires { self.old.next + 1 < 2 ^ 32 }
        ensures past { OnOk result (Advances event self.old self.new events.old events.new) }
        ensures rest { self.new ≡ record self.old { next = self.new.next } }
    {
        events.push(event)?;
        self.next += 1;
        Ok(())
    }
}
