//! The lanes of a schedule.
ghost use Rattle.std.specs.Prelude.{◌≡◌, ℕ, ◌<◌, ◌≤◌, length, slice_get, List, Some, IfOk};
ghost use Rattle.lapi_base.specs.declared.schedule.Line.{Line};
ghost use Rattle.lapi_base.specs.Record.Lanes.{WorkersKeepLanes};
ghost use Rattle.lapi_live.specs.Lanes.{worker_of, lane_known, lines_of_lane, lane_set, AreKnown, ClashTold, Notes, TellsClash};

use crate::lane_set::{LaneSet, OneLane};
use lapi_base::{Act, Line, Memory, Numbers};
use std::alloc::Global;

/// Why lanes can't run on threads of their own.
#[derive(Clone, Copy, Debug, Eq, PartialEq)]
pub enum LaneFault {
    /// Lines of this worker stand in two lanes.
    Clash { task: u32, worker: u32 },
    Memory,
}

/// A worker, and the lane of its lines.
#[derive(Clone, Copy, Debug)]
struct WorkerLane {
    task: u32,
    worker: u32,
    lane: u32,
}

/// The lanes that have lines, rising, each with its lines in order. A fault names the worker of the first line that has
/// another lane than an earlier line of its worker.
pub fn lanes(alloc: Global, schedule: &[Line]) -> Result<LaneSet, LaneFault>
    requires { length schedule.now ≤ 20000 }
    ensures lanes { IfOk result (λ set. set ≡ lane_set schedule.now) }
    ensures apart { IfOk result (λ _. WorkersKeepLanes schedule.now) }
    ensures clash { ClashTold schedule.now result }
{
    match first_clash(alloc, schedule) {
        Ok(None) => match all_lanes(alloc, schedule) {
            Ok(set) => Ok(set),
            Err(Memory) => Err(LaneFault::Memory),
        },
        Ok(Some((task, worker))) => Err(LaneFault::Clash { task, worker }),
        Err(Memory) => Err(LaneFault::Memory),
    }
}

fn all_lanes(alloc: Global, schedule: &[Line]) -> Result<LaneSet, Memory>
    requires { length schedule.now ≤ 20000 }
    ensures { IfOk result (λ set. set ≡ lane_set schedule.now) }
{
    let mut items = Vec::new(alloc);
    for lane in 0..16u32 {
        let lines = lines_of(alloc, schedule, lane)?;
        if !lines.as_slice().is_empty() {
            items.push(OneLane { lane, lines })?;
        }
    }
    Ok(LaneSet::of(items))
}

/// The lines of a lane, in order.
fn lines_of(alloc: Global, schedule: &[Line], lane: u32) -> Result<Numbers, Memory>
    requires { length schedule.now ≤ 20000 }
    ensures { IfOk result (λ lines. lines ≡ lines_of_lane schedule.now lane) }
{
    let mut lines = Numbers::new(alloc);
    for n in 0..schedule.len() as u32 {
        if line_at(schedule, n).lane == lane {
            lines.push(n)?;
        }
    }
    Ok(lines)
}

/// The worker of the first line that has another lane than an earlier line of that worker.
fn first_clash(alloc: Global, schedule: &[Line]) -> Result<Option<(u32, u32)>, Memory>
    requires { length schedule.now ≤ 20000 }
    ensures { IfOk result (TellsClash schedule.now) }
{
    let mut known = Vec::new(alloc);
    for n in 0..schedule.len() as u32 {
        if let Some((task, worker)) = note_line(&mut known, line_at(schedule, n))? {
            return Ok(Some((task, worker)));
        }
    }
    Ok(None)
}

/// Notes the lane of the line's worker, or answers the worker where another lane is known of it.
fn note_line(known: &mut Vec<WorkerLane>, line: &Line) -> Result<Option<(u32, u32)>, Memory>
    ensures { (schedule : List Line) (n : ℕ) → slice_get schedule n ≡ Some line.now
        → AreKnown schedule n known.old.items → IfOk result (Notes schedule n known.new.items) }
{
    let Some((task, worker)) = worker_of(&line.act) else {
        return Ok(None);
    };
    let lane = line.lane;
    match known_lane(known.as_slice(), task, worker) {
        Some(before) if before == lane => Ok(None),
        Some(_) => Ok(Some((task, worker))),
        None => {
            known.push(WorkerLane { task, worker, lane })?;
            Ok(None)
        }
    }
}

fn known_lane(known: &[WorkerLane], task: u32, worker: u32) -> Option<u32>
    ensures { result ≡ lane_known known.now task worker }
{
    for entry in known {
        if entry.task == task && entry.worker == worker {
            return Some(entry.lane);
        }
    }
    None
}

/// The worker of a Begin or an End.
fn worker_of(act: &Act) -> Option<(u32, u32)>
    ensures { result ≡ worker_of act.now }
{
    match act {
        Act::Begin { task, worker } | Act::End { task, worker } => Some((*task, *worker)),
        Act::Step(_)
        | Act::Poll(_)
        | Act::Tick(_)
        | Act::Deliver { .. }
        | Act::Cut { .. }
        | Act::Inject { .. } => None,
    }
}

fn line_at(schedule: &[Line], n: u32) -> &Line
    requires { n < length schedule.now }
    ensures { slice_get schedule.now n ≡ Some result.now }
{
    &schedule[n as usize]
}
