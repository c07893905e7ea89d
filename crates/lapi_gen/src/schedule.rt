ghost use Rattle.std.specs.Prelude.{◌≡◌, ◌<◌, ◌++◌, OnOk, IfOk};
ghost use Rattle.std.specs.List.{AllByRecursion, flat_map};
ghost use Rattle.lapi_gen.specs.declared.form.TheConstants.{BATCHES};
ghost use Rattle.lapi_gen.specs.Batches.{IsBatch};
ghost use Rattle.lapi_gen.specs.Schedules.{IsLink, link_lines, batch_lines, all_batch_lines, store_steps, all_store_steps, schedule_of};

use crate::batch::Batch;
use crate::draws::Draws;
use crate::form::{BATCHES, STORES, TASKS};
use crate::lines::{link_lines, step};
use crate::link::{Link, links_at};
use crate::part::Part;
use lapi_base::{Memory, Schedule};
use std::alloc::Global;

#[tactic(auto, unfolding(crate::specs::Schedules::schedule_of))]
pub fn schedule(alloc: Global, draws: &Draws) -> Result<Schedule, Memory>
    ensures { IfOk result (λ schedule. schedule ≡ schedule_of draws.now) }
{
    let mut schedule = Schedule::new(alloc);
    all_store_steps(&mut schedule)?;
    all_batch_lines(&mut schedule, draws)?;
    Ok(schedule)
}

/// Appends the steps of all stores.
#[tactic(auto, using(crate::proofs::Numbered::flat_none, crate::proofs::Numbered::flat_next))]
fn all_store_steps(schedule: &mut Schedule) -> Result<(), Memory>
    ensures { OnOk result (schedule.new ≡ schedule.old ++ all_store_steps) }
{
    for a in 0..TASKS as u32 {
        store_steps(schedule, a)?;
    }
    Ok(())
}

/// Appends the steps of a task's stores.
fn store_steps(schedule: &mut Schedule, a: u32) -> Result<(), Memory>
    ensures { OnOk result (schedule.new ≡ schedule.old ++ store_steps a) }
{
    for _i in 0..STORES {
        step(schedule, a)?;
    }
    Ok(())
}

/// Appends the lines of all batches.
#[tactic(auto, using(crate::proofs::Numbered::flat_none, crate::proofs::Numbered::flat_next))]
fn all_batch_lines(schedule: &mut Schedule, draws: &Draws) -> Result<(), Memory>
    ensures { OnOk result (schedule.new ≡ schedule.old ++ all_batch_lines draws.now) }
{
    for b in 0..BATCHES {
        batch_lines(schedule, draws, b)?;
    }
    Ok(())
}

/// Appends the lines of batch `b`.
fn batch_lines(schedule: &mut Schedule, draws: &Draws, b: u32) -> Result<(), Memory>
    requires { b < BATCHES }
    ensures { OnOk result (schedule.new ≡ schedule.old ++ batch_lines draws.now b) }
{
    let batch = draws.batch(b);
    let links = links_at(draws, b);
    part_lines(schedule, &batch, &links, Part::Steps)?;
    part_lines(schedule, &batch, &links, Part::Polls)?;
    part_lines(schedule, &batch, &links, Part::Requests)?;
    part_lines(schedule, &batch, &links, Part::Acknowledgements)?;
    part_lines(schedule, &batch, &links, Part::Again)?;
    part_lines(schedule, &batch, &links, Part::Jobs)?;
    part_lines(schedule, &batch, &links, Part::Answers)?;
    part_lines(schedule, &batch, &links, Part::Returns)?;
    Ok(())
}

/// Appends a part of a batch, on each link.
fn part_lines(
    schedule: &mut Schedule,
    batch: &Batch,
    links: &[Link],
    part: Part,
) -> Result<(), Memory>
    requires batch { IsBatch batch.now }
    requires links { AllByRecursion IsLink links.now }
    ensures { OnOk result (schedule.new ≡ schedule.old ++ flat_map (λ link. link_lines batch.now link part) links.now) }
{
    for link in links {
        link_lines(schedule, batch, link, part)?;
    }
    Ok(())
}
