ghost use Rattle.std.specs.Prelude.{◌≡◌, ◌<◌, false, List, [], ◌∷◌, ◌++◌, Option, IfOk, OnOk, length};
ghost use Rattle.lapi_base.specs.Record.Operations.{numbers_below};
ghost use Rattle.lapi_base.specs.Packet.Spelling.{spells_packet};
ghost use Rattle.lapi_handlers.specs.Handlers.{rules_of};
ghost use Rattle.lapi_base.specs.Record.Valid.{ValidScript, ValidSchedule};
ghost use Rattle.lapi_handlers.specs.declared.finished.Finished.{Finished};
ghost use Rattle.lapi_world.specs.Jobs.{AreKept, BeginsAt, EndsAt, IsPlainLine};

use lapi_base::{Act, Input, Memory};
use lapi_handlers::{Begun, Handlers};
use lapi_world::{FinishedJobs, World};
use std::alloc::Global;

/// The world of an input after every line of its schedule, in order.
pub fn performed(alloc: Global, input: Input, handlers: &Handlers) -> Result<World, Memory>
    requires script { ValidScript input.script }
    requires schedule { ValidSchedule input.script spells_packet input.schedule }
    ensures { let taken = numbers_below (length input.schedule) in
        IfOk result (λ w. w ≡ record {
          script = input.script;
          rules = rules_of handlers.now;
          schedule = input.schedule;
          taken = taken;
          spent = false;
        }) }
{
    let mut world = World::new(alloc, input.script, input.schedule, handlers)?;
    let mut jobs = FinishedJobs::new(alloc)?;
    let count = world.schedule().len() as u32;
    for n in 0..count {
        match take_line(alloc, &mut world, handlers, &mut jobs, n) {
            Ok(()) => {}
            Err(_) => return Err(Memory),
        }
    }
    Ok(world)
}

/// Takes line `n`, of whatever form.
pub(crate) fn take_line(
    alloc: Global,
    world: &mut World,
    handlers: &Handlers,
    jobs: &mut FinishedJobs,
    n: u32,
) -> Result<(), Memory>
    requires line { n < length world.old.schedule }
    requires rules { rules_of handlers.now ≡ world.old.rules }
    requires jobs { AreKept world.old jobs.old }
    ensures world { OnOk result (world.new ≡ record world.old { taken = world.old.taken ++ n ∷ [] }) }
    ensures jobs { OnOk result (AreKept world.new jobs.new) }
{
    match world.schedule()[n as usize].act {
        Act::Begin { task, worker } => { take_begin(alloc, world, handlers, jobs, n, task, worker) }
        Act::End { task, worker } => take_end(alloc, world, jobs, n, task, worker),
        Act::Step(_)
        | Act::Poll(_)
        | Act::Tick(_)
        | Act::Deliver { .. }
        | Act::Cut { .. }
        | Act::Inject { .. } => take_plain(alloc, world, handlers, n),
    }
}

/// Takes line `n`, which neither begins nor ends a job.
fn take_plain(alloc: Global, world: &mut World, handlers: &Handlers, n: u32) -> Result<(), Memory>
    requires line { (n < length world.old.schedule) × IsPlainLine world.old.schedule n }
    requires valid { ValidSchedule world.old.script spells_packet world.old.schedule }
    requires rules { rules_of handlers.now ≡ world.old.rules }
    ensures world { OnOk result (world.new ≡ record world.old { taken = world.old.taken ++ n ∷ [] }) }
    ensures jobs { OnOk result ((jobs : List (Option Finished)) → AreKept world.old jobs → AreKept world.new jobs) }
{
    world.line(alloc, handlers, n)?;
    Ok(())
}

/// Takes line `n`, a Begin, and calls the completion handler of the job that begins.
fn take_begin(
    alloc: Global,
    world: &mut World,
    handlers: &Handlers,
    jobs: &mut FinishedJobs,
    n: u32,
    task: u32,
    worker: u32,
) -> Result<(), Memory>
    requires line { BeginsAt world.old.schedule n task worker }
    requires valid { ValidScript world.old.script × ValidSchedule world.old.script spells_packet world.old.schedule }
    requires rules { rules_of handlers.now ≡ world.old.rules }
    requires jobs { AreKept world.old jobs.old }
    ensures world { OnOk result (world.new ≡ record world.old { taken = world.old.taken ++ n ∷ [] }) }
    ensures jobs { OnOk result (AreKept world.new jobs.new) }
{
    match world.begin(alloc, n)? {
        Begun::Job(job) => jobs.put(handlers.complete(job)),
        Begun::Idle | Begun::Busy => {}
    }
    Ok(())
}

/// Takes line `n`, an End, with what became of its worker's job.
fn take_end(
    alloc: Global,
    world: &mut World,
    jobs: &mut FinishedJobs,
    n: u32,
    task: u32,
    worker: u32,
) -> Result<(), Memory>
    requires line { EndsAt world.old.schedule n task worker }
    requires valid { ValidScript world.old.script × ValidSchedule world.old.script spells_packet world.old.schedule }
    requires jobs { AreKept world.old jobs.old }
    ensures world { OnOk result (world.new ≡ record world.old { taken = world.old.taken ++ n ∷ [] }) }
    ensures jobs { OnOk result (AreKept world.new jobs.new) }
{
    let finished = jobs.take(task, worker);
    world.end(alloc, n, finished)?;
    Ok(())
}
