ghost use Rattle.std.specs.Prelude.{◌≡◌, ◌+◌, ◌^◌, ◌<◌, ◌≤◌, [], ◌∷◌, ◌++◌, OnOk};
ghost use Rattle.lapi_gen.specs.Batches.{IsBatch, most_packets};
ghost use Rattle.lapi_gen.specs.Schedules.{IsLink, step, poll, tick, deliver, begin, end, deliveries, deliveries_from_turn, again, returns, jobs, link_lines};

use crate::batch::Batch;
use crate::form::WORKER;
use crate::kind::Kind;
use crate::link::Link;
use crate::part::Part;
use lapi_base::{Act, Line, Memory, Schedule};

/// Appends the lines of a part of a batch on a link.
pub fn link_lines(
    schedule: &mut Schedule,
    batch: &Batch,
    link: &Link,
    part: Part,
) -> Result<(), Memory>
    requires batch { IsBatch batch.now }
    requires link { IsLink link.now }
    ensures { OnOk result (schedule.new ≡ schedule.old ++ link_lines batch.now link.now part) }
{
    match part {
        Part::Steps => step(schedule, link.from),
        Part::Polls => poll(schedule, link.from),
        Part::Requests => deliveries_from_turn(schedule, link, batch.requests(), batch.kept()),
        Part::Acknowledgements => {
            deliveries(schedule, link.to, link.from, link.back, batch.kept())
        }
        Part::Again => {
            if batch.lost == 1 {
                again(schedule, batch, link)?;
            }
            Ok(())
        }
        Part::Jobs => jobs(schedule, batch.kind, link.to),
        Part::Answers => poll(schedule, link.to),
        Part::Returns => returns(schedule, batch, link),
    }
}

/// Hands over so many packets of a request that has more, from the link's turn on.
#[tactic(auto, using(crate::proofs::Numbered::map_none, crate::proofs::Numbered::map_next))]
fn deliveries_from_turn(
    schedule: &mut Schedule,
    link: &Link,
    packets: u32,
    count: u32,
) -> Result<(), Memory>
    requires link { IsLink link.now }
    requires packets { (0 < packets) × (packets ≤ most_packets) × (count ≤ packets) }
    ensures { OnOk result (schedule.new ≡ schedule.old ++ deliveries_from_turn link.now packets count) }
{
    for j in 0..count {
        let entry = link.there + (link.turn + j) % packets;
        deliver(schedule, link.from, link.to, entry)?;
    }
    Ok(())
}

/// Hands over so many entries of a wire, in order.
#[tactic(auto, using(crate::proofs::Numbered::map_none, crate::proofs::Numbered::map_next))]
fn deliveries(schedule: &mut Schedule, a: u32, b: u32, first: u32, count: u32) -> Result<(), Memory>
    requires { first + count < 2 ^ 32 }
    ensures { OnOk result (schedule.new ≡ schedule.old ++ deliveries a b first count) }
{
    for j in 0..count {
        deliver(schedule, a, b, first + j)?;
    }
    Ok(())
}

/// What was lost is sent again, handed over and acknowledged.
fn again(schedule: &mut Schedule, batch: &Batch, link: &Link) -> Result<(), Memory>
    requires batch { IsBatch batch.now }
    requires link { IsLink link.now }
    ensures { OnOk result (schedule.new ≡ schedule.old ++ again batch.now link.now) }
{
    tick(schedule, link.from)?;
    deliver(schedule, link.from, link.to, link.there + batch.requests())?;
    deliver(schedule, link.to, link.from, link.back + batch.kept())
}

/// The answer is handed over, and what acknowledges it.
fn returns(schedule: &mut Schedule, batch: &Batch, link: &Link) -> Result<(), Memory>
    requires batch { IsBatch batch.now }
    requires link { IsLink link.now }
    ensures { OnOk result (schedule.new ≡ schedule.old ++ returns batch.now link.now) }
{
    let first = link.back + batch.requests();
    deliveries(schedule, link.to, link.from, first, batch.answers())?;
    let first = link.there + batch.requests() + batch.lost;
    deliveries(schedule, link.from, link.to, first, batch.answers())
}

/// A worker takes the job of an active message and ends it.
fn jobs(schedule: &mut Schedule, kind: Kind, task: u32) -> Result<(), Memory>
    ensures { OnOk result (schedule.new ≡ schedule.old ++ jobs kind task) }
{
    match kind {
        Kind::Am => {
            begin(schedule, task)?;
            end(schedule, task)
        }
        Kind::Put | Kind::Get | Kind::Rmw => Ok(()),
    }
}

pub fn step(schedule: &mut Schedule, task: u32) -> Result<(), Memory>
    ensures { OnOk result (schedule.new ≡ schedule.old ++ step task ∷ []) }
{
    push(schedule, task, Act::Step(task))
}

fn poll(schedule: &mut Schedule, task: u32) -> Result<(), Memory>
    ensures { OnOk result (schedule.new ≡ schedule.old ++ poll task ∷ []) }
{
    push(schedule, task, Act::Poll(task))
}

fn tick(schedule: &mut Schedule, task: u32) -> Result<(), Memory>
    ensures { OnOk result (schedule.new ≡ schedule.old ++ tick task ∷ []) }
{
    push(schedule, task, Act::Tick(task))
}

fn deliver(schedule: &mut Schedule, a: u32, b: u32, k: u32) -> Result<(), Memory>
    ensures { OnOk result (schedule.new ≡ schedule.old ++ deliver a b k ∷ []) }
{
    push(schedule, a, Act::Deliver { a, b, k })
}

fn begin(schedule: &mut Schedule, task: u32) -> Result<(), Memory>
    ensures { OnOk result (schedule.new ≡ schedule.old ++ begin task ∷ []) }
{
    push(
        schedule,
        task,
        Act::Begin {
            task,
            worker: WORKER,
        },
    )
}

fn end(schedule: &mut Schedule, task: u32) -> Result<(), Memory>
    ensures { OnOk result (schedule.new ≡ schedule.old ++ end task ∷ []) }
{
    push(
        schedule,
        task,
        Act::End {
            task,
            worker: WORKER,
        },
    )
}

fn push(schedule: &mut Schedule, lane: u32, act: Act) -> Result<(), Memory>
    ensures { OnOk result (schedule.new ≡ schedule.old ++ record { lane = lane; act = act } ∷ []) }
{
    schedule.push(Line { lane, act })
}
