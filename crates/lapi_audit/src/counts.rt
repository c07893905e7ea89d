//! The counters of all tasks.
ghost use Rattle.std.specs.Prelude.{◌≡◌, ◌+◌, ◌^◌, ◌<◌, ◌≤◌, ℕ, [], length, map, replicate, slice_index_or, slice_set, IfOk};
ghost use Rattle.lapi_base.specs.Record.Valid.{ValidScript};
ghost use Rattle.lapi_audit.specs.Counts as counts;
ghost use Rattle.lapi_calls.specs.Setting.{rules_of};

use lapi_base::{Event, Leg, Memory, MsgName, Script, Statement};
use lapi_calls::{Setting, completion_counter, has_back, origin_counter, target, target_counter};
use lapi_counters::Counters;
use std::alloc::Global;

/// The counters of each task.
#[derive(Debug, Drop)]
pub struct Counts {
    tasks: Vec<Counters>,
}

impl Counts {
    /// All counters are 0.
    pub fn new(alloc: Global, script: &Script) -> Result<Counts, Memory>
        ensures { IfOk result (λ made. made.tasks.items ≡ counts.zeros script.now) }
    {
        let mut tasks = Vec::new(alloc);
        for _task in 0..script.tasks {
            let counters = Counters::new(alloc, script.counters)?;
            tasks.push(counters)?;
        }
        Ok(Counts { tasks })
    }

    /// The counter's value; 0 where there is no such counter.
    pub fn get(&self, task: u32, counter: u32) -> u64
        requires { task < length self.now.tasks.items }
        ensures { result ≡ counts.value self.now.tasks.items task counter }
    {
        let counters = &self.tasks[task as usize];
        get(counters, counter)
    }

    /// The event stands.
    pub fn note(&mut self, setting: &Setting<'_>, statement: &Statement, event: &Event)
        requires small { (t c : ℕ) → counts.value self.old.tasks.items t c < 2 ^ 63 }
        requires there { counts.IsWithin (rules_of setting.now) event.now statement.now self.old.tasks.items }
        ensures { counts.AreCounted (rules_of setting.now) event.now statement.now self.old self.new }
    {
        match event {
            Event::Issue { task, .. } => {
                if let Statement::Set { counter, value } = statement {
                    self.set(*task, *counter, *value);
                }
            }
            Event::Pass { task, .. } => {
                if let Statement::Wait { counter, value } = statement {
                    self.take(*task, *counter, *value);
                }
            }
            Event::Refuse { .. }
            | Event::Enter { .. }
            | Event::Copy(_)
            | Event::Head(_)
            | Event::Land(_)
            | Event::Begin { .. }
            | Event::End { .. } => {
                let (task, counter) = told(setting, event, statement);
                self.announce(task, counter);
            }
        }
    }

    /// Sets a counter.
    fn set(&mut self, task: u32, counter: u32, value: u32)
        requires { counts.HasCounter self.old.tasks.items task counter }
        ensures { self.new.tasks.items ≡ counts.with_value self.old.tasks.items task counter value }
    {
        let counters = &mut self.tasks[task as usize];
        counters.set(counter, value);
    }

    /// Takes a value from a counter.
    fn take(&mut self, task: u32, counter: u32, value: u32)
        requires { counts.HasCounter self.old.tasks.items task counter }
        ensures { self.new.tasks.items ≡ counts.taken self.old.tasks.items task counter value }
    {
        let counters = &mut self.tasks[task as usize];
        take(counters, counter, value);
    }

    /// Counts one event at a counter, if one is named.
    fn announce(&mut self, task: u32, counter: Option<u32>)
        requires there { counts.HasNamed self.old.tasks.items task counter }
        requires small { (t c : ℕ) → counts.value self.old.tasks.items t c < 2 ^ 63 }
        ensures { self.new.tasks.items ≡ counts.announced self.old.tasks.items task counter }
    {
        if let Some(counter) = counter {
            let counters = &mut self.tasks[task as usize];
            announce(counters, counter);
        }
    }
}

/// A counter's value; 0 where there is no such counter.
fn get(counters: &Counters, counter: u32) -> u64
    ensures { result ≡ slice_index_or counters.now counter 0 }
{
    if (counter as usize) < counters.count() {
        counters.get(counter)
    } else {
        0
    }
}

/// Takes a value from a counter that has as much.
fn take(counters: &mut Counters, counter: u32, value: u32)
    requires { counter < length counters.old }
    ensures { counters.new ≡ counts.with_less counters.old counter value }
{
    counters.try_wait(counter, value);
}

/// Counts one event.
fn announce(counters: &mut Counters, counter: u32)
    requires there { counter < length counters.old }
    requires small { slice_index_or counters.old counter 0 < 2 ^ 63 }
    ensures { counters.new ≡ slice_set counters.old counter (slice_index_or counters.old counter 0 + 1) }
{
    counters.announce(counter);
}

/// The task and the counter that an event tells, if it tells one.
fn told(setting: &Setting<'_>, event: &Event, statement: &Statement) -> (u32, Option<u32>)
    ensures { (result.0, result.1) ≡ counts.told (rules_of setting.now) event.now statement.now }
{
    match event {
        Event::Copy(name) => told_by_copy(*name, statement),
        Event::Land(name) => told_by_land(setting, *name, statement),
        Event::End { task, .. } => (*task, target_counter(statement)),
        Event::Issue { .. }
        | Event::Refuse { .. }
        | Event::Enter { .. }
        | Event::Pass { .. }
        | Event::Head(_)
        | Event::Begin { .. } => (0, None),
    }
}

/// What the copy of a message tells: the origin, once its bytes are read; the target, once it has given them.
fn told_by_copy(name: MsgName, statement: &Statement) -> (u32, Option<u32>)
    ensures { (result.0, result.1) ≡ counts.told_copy name name.leg statement.now }
{
    match name.leg {
        Leg::Go if has_back(statement) => (name.origin, None),
        Leg::Go => (name.origin, origin_counter(statement)),
        Leg::Back => (target(name, statement), target_counter(statement)),
        Leg::Note | Leg::Echo | Leg::Join(_) => (name.origin, None),
    }
}

/// What the landing of a message tells: the target, once the data are there and no completion is to
/// follow; the origin, once it has what it asked for, or knows that all is done.
fn told_by_land(setting: &Setting<'_>, name: MsgName, statement: &Statement) -> (u32, Option<u32>)
    ensures { (result.0, result.1) ≡ counts.told_land (rules_of setting.now) name name.leg statement.now }
{
    match name.leg {
        Leg::Go if has_back(statement) || setting.has_completion(statement) => (name.origin, None),
        Leg::Go => (target(name, statement), target_counter(statement)),
        Leg::Back => (name.origin, origin_counter(statement)),
        Leg::Note | Leg::Echo => (name.origin, completion_counter(statement)),
        Leg::Join(_) => (name.origin, None),
    }
}
