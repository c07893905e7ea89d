ghost use Rattle.std.specs.Prelude.{◌≡◌, ◌<◌, false, IfOk, length, map, slice_index};
ghost use Rattle.lapi_base.specs.Record.Counters.{count};
ghost use Rattle.lapi_base.specs.Record.Operations.{numbers_below};
ghost use Rattle.lapi_base.specs.Record.WorldView.{view_record};
ghost use Rattle.lapi_views.specs.ChartParts.{mark_of};

use lapi_base::Memory;
use lapi_world::World;
use std::alloc::Global;
use std::marker::Model;

/// How far a task had come before a line.
#[derive(Debug, Drop)]
pub struct Before {
    replies: usize,
    events: usize,
    entries: Vec<usize>,
    counters: Vec<u64>,
}

impl Model for Before {
    ghost use Rattle.lapi_views.specs.ChartParts.{Mark};

    ghost Value = { Mark };

    ghost view = { λ b. record {
      replies = b.replies;
      events = b.events;
      entries = b.entries.items;
      counters = b.counters.items;
    } };
}

impl Before {
    /// Task `t` as it is now.
    #[tactic(auto, unfolding(crate::specs::ChartParts::mark_of))]
    pub fn new(alloc: Global, world: &World, t: u32) -> Result<Before, Memory>
        requires spent { world.now.spent ≡ false }
        requires task { t < world.now.script.tasks }
        ensures { IfOk result (λ before. before ≡ mark_of world.now.script world.now.rules (view_record world.now) t) }
    {
        Ok(Before {
            replies: world.replies().len(),
            events: world.journal().len(),
            entries: entries_from(alloc, world, t)?,
            counters: counters_of(alloc, world, t)?,
        })
    }

    pub fn replies(&self) -> usize
        ensures { result ≡ self.now.replies }
    {
        self.replies
    }

    pub fn events(&self) -> usize
        ensures { result ≡ self.now.events }
    {
        self.events
    }

    /// How many entries stood on the wire to task `b`.
    pub fn entries(&self, b: u32) -> usize
        requires { b < length self.now.entries }
        ensures { result ≡ slice_index self.now.entries b }
    {
        self.entries[b as usize]
    }

    /// The value of counter `c`.
    pub fn counter(&self, c: u32) -> u64
        requires { c < length self.now.counters }
        ensures { result ≡ slice_index self.now.counters c }
    {
        self.counters[c as usize]
    }
}

/// How many entries stand on the wires from task `a`.
fn entries_from(alloc: Global, world: &World, a: u32) -> Result<Vec<usize>, Memory>
    requires spent { world.now.spent ≡ false }
    requires task { a < world.now.script.tasks }
    ensures { IfOk result (λ entries. entries.items
        ≡ map (λ b. length ((view_record world.now).wire a b)) (numbers_below world.now.script.tasks)) }
{
    let mut entries = Vec::new(alloc);
    for b in 0..world.script().tasks {
        entries.push(world.wire(a, b).len())?;
    }
    Ok(entries)
}

fn counters_of(alloc: Global, world: &World, t: u32) -> Result<Vec<u64>, Memory>
    requires spent { world.now.spent ≡ false }
    requires task { t < world.now.script.tasks }
    ensures { IfOk result (λ counters. counters.items
        ≡ map (count world.now.script world.now.rules (view_record world.now).journal t)
        (numbers_below world.now.script.counters)) }
{
    let task = world.task(t);
    let mut counters = Vec::new(alloc);
    for c in 0..world.script().counters {
        counters.push(task.counter(c))?;
    }
    Ok(counters)
}
