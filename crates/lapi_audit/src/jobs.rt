//! The jobs that wait for a worker, and those that run.
ghost use Rattle.std.specs.Prelude.{◌≡◌, ◌<◌, ◌&&◌, ◌∷◌, [], ◌++◌, true, ℕ, List, length, drop, map, replicate, None, slice_get, slice_index_or, slice_set, IfOk, OnOk};
ghost use Rattle.lapi_base.specs.Record.Valid.{ValidScript};
ghost use Rattle.lapi_audit.specs.Jobs as jobs;
ghost use Rattle.lapi_calls.specs.Setting.{rules_of};

use lapi_base::{Event, Memory, MsgName, Script, Statement};
use lapi_calls::{Setting, is_go, receiver};
use std::alloc::Global;
use std::collections::VecDeque;
use std::marker::Model;

/// The jobs of a task that no worker has begun, the oldest first.
#[derive(Debug, Drop)]
pub struct Queue {
    items: VecDeque<MsgName>,
}

impl Model for Queue {
    ghost use Rattle.std.specs.Prelude.{List};
    ghost use Rattle.lapi_base.specs.declared.message.MsgName.{MsgName};

    ghost Value = { List MsgName };

    ghost view = { λ queue. queue.items.items };
}

impl Queue {
    fn new(alloc: Global) -> Queue
        ensures { result ≡ [] }
    {
        Queue {
            items: VecDeque::new(alloc),
        }
    }

    fn first(&self) -> Option<MsgName>
        ensures { result ≡ slice_get self.now 0 }
    {
        self.items.front().copied()
    }

    fn push(&mut self, name: MsgName) -> Result<(), Memory>
        ensures { OnOk result (self.new ≡ self.old ++ name ∷ []) }
    {
        self.items.push_back(name)?;
        Ok(())
    }

    fn pop(&mut self)
        ensures { self.new ≡ drop 1 self.old }
    {
        let _first = self.items.pop_front();
    }
}

/// What each worker of a task runs.
#[derive(Debug, Drop)]
pub struct Workers {
    items: Vec<Option<MsgName>>,
}

impl Model for Workers {
    ghost use Rattle.std.specs.Prelude.{List, Option};
    ghost use Rattle.lapi_base.specs.declared.message.MsgName.{MsgName};

    ghost Value = { List (Option MsgName) };

    ghost view = { λ workers. workers.items.items };
}

impl Workers {
    fn new(alloc: Global, count: u32) -> Result<Workers, Memory>
        ensures { IfOk result (λ made. made ≡ replicate count None) }
    {
        let items = vec![in alloc; None; count as usize]?;
        Ok(Workers { items })
    }

    fn get(&self, worker: u32) -> Option<MsgName>
        requires { worker < length self.now }
        ensures { result ≡ slice_index_or self.now worker None }
    {
        self.items[worker as usize]
    }

    fn set(&mut self, worker: u32, job: Option<MsgName>)
        requires { worker < length self.old }
        ensures { self.new ≡ slice_set self.old worker job }
    {
        self.items[worker as usize] = job;
    }
}

/// The jobs of all tasks.
#[derive(Debug, Drop)]
pub struct Jobs {
    queues: Vec<Queue>,
    workers: Vec<Workers>,
}

impl Jobs {
    /// No job came yet.
    pub fn new(alloc: Global, script: &Script) -> Result<Jobs, Memory>
        ensures queues { IfOk result (λ made. made.queues.items ≡ jobs.no_queues script.now) }
        ensures workers { IfOk result (λ made. made.workers.items ≡ jobs.idle script.now) }
    {
        let mut queues = Vec::new(alloc);
        let mut workers = Vec::new(alloc);
        for _task in 0..script.tasks {
            queues.push(Queue::new(alloc))?;
            let idle = Workers::new(alloc, script.workers)?;
            workers.push(idle)?;
        }
        Ok(Jobs { queues, workers })
    }

    /// Whether a job begins in its turn, or ends where it runs.
    pub fn is_in_turn(&self, event: &Event) -> bool
        requires { jobs.IsWithin self.now.queues.items self.now.workers.items event.now }
        ensures { result ≡ jobs.turn_by self.now.queues.items self.now.workers.items event.now }
    {
        match event {
            Event::Begin { name, task, worker } => {
                is_name(*name, self.queues[*task as usize].first())
                    && self.workers[*task as usize].get(*worker).is_none()
            }
            Event::End { name, task, worker } => {
                is_name(*name, self.workers[*task as usize].get(*worker))
            }
            Event::Issue { .. }
            | Event::Refuse { .. }
            | Event::Enter { .. }
            | Event::Pass { .. }
            | Event::Copy(_)
            | Event::Head(_)
            | Event::Land(_) => true,
        }
    }

    /// The event stands.
    pub fn note(
        &mut self,
        setting: &Setting<'_>,
        statement: &Statement,
        event: &Event,
    ) -> Result<(), Memory>
        requires workers { jobs.IsWithin self.old.queues.items self.old.workers.items event.now }
        requires queue { jobs.HasQueue (rules_of setting.now) statement.now event.now self.old.queues.items }
        ensures queues { OnOk result (jobs.AreQueued (rules_of setting.now) statement.now event.now self.old self.new) }
        ensures workers { OnOk result (self.new.workers.items ≡ jobs.workers_after event.now self.old.workers.items) }
    {
        match event {
            Event::Land(name) => {
                if is_go(name.leg) && setting.has_completion(statement) {
                    self.enqueue(receiver(*name, statement), *name)?;
                }
            }
            Event::Begin { name, task, worker } => {
                self.queues[*task as usize].pop();
                self.workers[*task as usize].set(*worker, Some(*name));
            }
            Event::End { task, worker, .. } => self.workers[*task as usize].set(*worker, None),
            Event::Issue { .. }
            | Event::Refuse { .. }
            | Event::Enter { .. }
            | Event::Pass { .. }
            | Event::Copy(_)
            | Event::Head(_) => {}
        }
        Ok(())
    }

    /// A job waits behind the others of its task.
    fn enqueue(&mut self, task: u32, name: MsgName) -> Result<(), Memory>
        requires { task < length self.old.queues.items }
        ensures queues { OnOk result (self.new.queues.items ≡ jobs.enqueued task name self.old.queues.items) }
        ensures workers { self.new.workers ≡ self.old.workers }
    {
        self.queues[task as usize].push(name)
    }
}

/// Whether this is the name.
fn is_name(name: MsgName, other: Option<MsgName>) -> bool
    ensures { result ≡ jobs.is_name name other }
{
    match other {
        Some(other) => name.is_same(other),
        None => false,
    }
}
