//! Lanes that run on threads of their own.
ghost use Rattle.std.specs.Prelude.{◌≡◌, ℕ, ◌*◌, ◌+◌, ◌^◌, ◌<◌, [], ◌∷◌, length, IfOk, OnOk};
ghost use Rattle.std.specs.Thread.{IsSync};
ghost use Rattle.lapi_handlers.specs.Handlers.{rules_of};
ghost use Rattle.lapi_world.specs.Jobs.{IsBeginLine, EndsAt};
ghost use Rattle.lapi_live.specs.Histories.{IsOwn, NoJobs};
ghost use Rattle.lapi_live.specs.Kinds.{kinds_of};
ghost use Rattle.lapi_live.specs.Passes.{plan_of, seen_by, lanes_of, IsPassOf, StaysPass, TakesLine};
ghost use Rattle.lapi_live.specs.Running.{AreHeld, AreOwn, MayRun, HasRun};

use crate::gate::Gate;
use crate::kinds::{Kind, Kinds};
use crate::lane_set::{LaneSet, OneLane};
use crate::pass::Pass;
use crate::room::Room;
use crate::shared::Shared;
use crate::steps::{join_passes, split_pass, take_begin, take_end, take_line};
use lapi_base::Memory;
use lapi_handlers::{Begun, Handlers};
use lapi_turn::Turn;
use lapi_world::FinishedJobs;
use std::alloc::Global;
use std::sync::Wait;
use std::thread;
use std::thread::Threads;

/// Takes line `n`, a Begin, and calls the handler of the job that it gives, without the turn.
fn run_begin<R: Wait, G: Gate>(
    rt: &R,
    alloc: Global,
    turn: &Turn<Room>,
    handlers: &Handlers,
    gate: &G,
    pass: &mut Pass,
    jobs: &mut FinishedJobs,
    n: u32,
) -> Result<(), Memory>
    requires rules { rules_of handlers.now ≡ (plan_of turn.now).rules }
    requires pass { IsPassOf turn.now pass.old }
    requires line { IsBeginLine (plan_of turn.now).schedule n }
    requires own { IsOwn (plan_of turn.now).schedule (lanes_of pass.old) n }
    requires jobs { AreHeld (plan_of turn.now) (lanes_of pass.old) (seen_by pass.old) jobs.old }
    ensures pass { StaysPass turn.now pass.old pass.new }
    ensures seen { OnOk result (TakesLine turn.now pass.old pass.new n) }
    ensures jobs { OnOk result (AreHeld (plan_of turn.now) (lanes_of pass.old) (seen_by pass.new) jobs.new) }
{
    let begun = take_begin(rt, alloc, turn, pass, n)?;
    match begun {
        Begun::Job(job) => {
            gate.between(job.task, job.worker);
            jobs.put(handlers.complete(job));
        }
        Begun::Idle | Begun::Busy => {}
    }
    Ok(())
}

/// Takes line `n`, an End, with what became of the job of its worker.
fn run_end<R: Wait>(
    rt: &R,
    alloc: Global,
    turn: &Turn<Room>,
    pass: &mut Pass,
    jobs: &mut FinishedJobs,
    n: u32,
    task: u32,
    worker: u32,
) -> Result<(), Memory>
    requires pass { IsPassOf turn.now pass.old }
    requires line { EndsAt (plan_of turn.now).schedule n task worker }
    requires own { IsOwn (plan_of turn.now).schedule (lanes_of pass.old) n }
    requires jobs { AreHeld (plan_of turn.now) (lanes_of pass.old) (seen_by pass.old) jobs.old }
    ensures pass { StaysPass turn.now pass.old pass.new }
    ensures seen { OnOk result (TakesLine turn.now pass.old pass.new n) }
    ensures jobs { OnOk result (AreHeld (plan_of turn.now) (lanes_of pass.old) (seen_by pass.new) jobs.new) }
{
    let finished = jobs.take(task, worker);
    take_end(rt, alloc, turn, pass, n, finished)?;
    Ok(())
}

/// Takes line `n`, of whatever kind.
fn run_line<R: Wait, G: Gate>(
    rt: &R,
    alloc: Global,
    turn: &Turn<Room>,
    handlers: &Handlers,
    kinds: &Kinds,
    gate: &G,
    pass: &mut Pass,
    jobs: &mut FinishedJobs,
    n: u32,
) -> Result<(), Memory>
    requires rules { rules_of handlers.now ≡ (plan_of turn.now).rules }
    requires kinds { kinds.now ≡ kinds_of (plan_of turn.now).schedule }
    requires pass { IsPassOf turn.now pass.old }
    requires line { n < length (plan_of turn.now).schedule }
    requires own { IsOwn (plan_of turn.now).schedule (lanes_of pass.old) n }
    requires jobs { AreHeld (plan_of turn.now) (lanes_of pass.old) (seen_by pass.old) jobs.old }
    ensures pass { StaysPass turn.now pass.old pass.new }
    ensures seen { OnOk result (TakesLine turn.now pass.old pass.new n) }
    ensures jobs { OnOk result (AreHeld (plan_of turn.now) (lanes_of pass.old) (seen_by pass.new) jobs.new) }
{
    match kinds.at(n) {
        Kind::Plain => {
            take_line(rt, alloc, turn, handlers, pass, n)?;
            Ok(())
        }
        Kind::Begin { task: _, worker: _ } => {
            run_begin(rt, alloc, turn, handlers, gate, pass, jobs, n)
        }
        Kind::End { task, worker } => run_end(rt, alloc, turn, pass, jobs, n, task, worker),
    }
}

/// Runs the lines of one lane, in order.
fn run_lane<R: Wait, G: Gate>(
    rt: &R,
    alloc: Global,
    turn: &Turn<Room>,
    handlers: &Handlers,
    kinds: &Kinds,
    gate: &G,
    pass: Pass,
    lane: &OneLane,
) -> Result<Pass, Memory>
    requires rules { rules_of handlers.now ≡ (plan_of turn.now).rules }
    requires run { MayRun turn.now kinds.now pass (lane.now ∷ []) }
    ensures { IfOk result (HasRun turn.now (lane.now ∷ []) pass) }
{
    let mut pass = pass;
    let mut jobs = FinishedJobs::new(alloc)?;
    for n in lane.lines.as_slice() {
        run_line(
            rt, alloc, turn, handlers, kinds, gate, &mut pass, &mut jobs, *n,
        )?;
    }
    Ok(pass)
}

/// Runs these lanes, each on a thread of its own. `run` runs one lane.
#[cycle(lanes)]
fn run_all<
    R: Threads + Sync,
    F: Fn(&Turn<Room>, &Kinds, Pass, &OneLane) -> Result<Pass, Memory> + Sync,
>(
    rt: &R,
    turn: &Turn<Room>,
    kinds: &Kinds,
    run: &F,
    pass: Pass,
    lanes: &[OneLane],
) -> Result<Pass, Memory>
    requires called { (p : _) (one : _) → MayRun turn.now kinds.now p (one.now ∷ []) → F.pre run.now turn kinds p one }
    requires runs { (p : _) (one : _) (r : _) → MayRun turn.now kinds.now p (one.now ∷ []) → F.post run.now turn kinds p one r → IfOk r (HasRun turn.now (one.now ∷ []) p) }
    requires may { MayRun turn.now kinds.now pass lanes.now }
    ensures { IfOk result (HasRun turn.now lanes.now pass) }
{
    let Some((first, rest)) = lanes.split_first() else {
        return Ok(pass);
    };
    if rest.is_empty() {
        return run(turn, kinds, pass, first);
    }
    let mut pass = pass;
    let mine = split_pass(turn, &mut pass, mask_of(first.lane));
    let one = move || -> Result<Pass, Memory>
        requires { IsSync F.row × F.pre run.now turn kinds mine first }
        ensures { F.post run.entry.now turn.entry kinds.entry mine first.entry result }
    { run(turn, kinds, mine, first) };
    let others = move || -> Result<Pass, Memory>
        requires { IsSync R.row × IsSync F.row
            × ((p : _) (one : _) → MayRun turn.now kinds.now p (one.now ∷ []) → F.pre run.now turn kinds p one)
            × ((p : _) (one : _) (r : _) → MayRun turn.now kinds.now p (one.now ∷ []) → F.post run.now turn kinds p one r → IfOk r (HasRun turn.now (one.now ∷ []) p))
            × MayRun turn.now kinds.now pass rest.now }
        ensures { IfOk result (HasRun turn.entry.now rest.entry.now pass) }
    { run_all(rt, turn, kinds, run, pass, rest) };
    let (one, others) = thread::join(rt, one, others);
    let one = one?;
    let others = others?;
    Ok(join_passes(turn, others, one))
}

/// Runs each lane on a thread of its own: its lines in order, with the handlers called without the turn. Where no
/// thread can be made, the caller runs the lane. All lanes have ended when it answers.
pub fn run_lanes<R: Threads + Wait + Sync, G: Gate + Sync>(
    rt: &R,
    alloc: Global,
    shared: &Shared,
    pass: Pass,
    lanes: &LaneSet,
    gate: &G,
) -> Result<Pass, Memory>
    requires pass { IsPassOf shared.now.turn pass }
    requires own { AreOwn (plan_of shared.now.turn).schedule (lanes_of pass) lanes.now }
    requires idle { NoJobs (plan_of shared.now.turn) (lanes_of pass) (seen_by pass) }
    ensures { IfOk result (HasRun shared.now.turn lanes.now pass) }
{
    run_parts(
        rt,
        alloc,
        &shared.turn,
        shared.handlers,
        &shared.kinds,
        gate,
        pass,
        lanes.as_slice(),
    )
}

fn run_parts<R: Threads + Wait + Sync, G: Gate + Sync>(
    rt: &R,
    alloc: Global,
    turn: &Turn<Room>,
    handlers: &Handlers,
    kinds: &Kinds,
    gate: &G,
    pass: Pass,
    lanes: &[OneLane],
) -> Result<Pass, Memory>
    requires rules { rules_of handlers.now ≡ (plan_of turn.now).rules }
    requires may { MayRun turn.now kinds.now pass lanes.now }
    ensures { IfOk result (HasRun turn.now lanes.now pass) }
{
    let run = |turn: &Turn<Room>, kinds: &Kinds, pass: Pass, one: &OneLane| -> Result<Pass, Memory>
        requires { (rules_of handlers.now ≡ (plan_of turn.now).rules) × MayRun turn.now kinds.now pass (one.now ∷ []) }
        ensures { IfOk result (HasRun turn.now (one.now ∷ []) pass) }
    { run_lane(rt, alloc, turn, handlers, kinds, gate, pass, one) };
    run_all(rt, turn, kinds, &run, pass, lanes)
}

/// The lane as a bit.
fn mask_of(lane: u32) -> u32
    requires { lane < 16 }
    ensures { result ≡ 2 ^ lane }
{
    1 << lane
}
