//! How many numbers each Poll of a plan's schedule adds to each link.

ghost use Rattle.std.specs.Prelude.{◌≡◌, ◌*◌, ◌≤◌, ◌<◌, length, slice_get};
ghost use Rattle.lapi_blocks.specs.PlanCounts.{part_numbers, call_numbers, answer_numbers, going, coming, joining, added};
ghost use Rattle.lapi_blocks.specs.Plans.{ValidPlan, tasks_of, part_of, patch_of, is_nonempty};
ghost use Rattle.lapi_array.specs.Counting.{sweep_number};
ghost use Rattle.lapi_array.specs.Parts.{IsOp};

use crate::part::{is_nonempty, op_at, part_of};
use crate::sweep::Sweep;
use lapi_blocks::{Op, Patch, Plan};

/// The bytes of each packet of a message but the last.
const UNIT: u32 = 256;

/// How many a message with the words of this part has.
fn part_numbers(part: &Patch) -> u32
    requires { part.now.rows * part.now.cols ≤ 256 }
    ensures number { result ≡ part_numbers part.now }
    ensures few { result ≤ 4 }
{
    let bytes = 4 * (part.rows * part.cols);
    ((bytes + (UNIT - 1)) / UNIT).max(1)
}

/// How many the call on this part sends to its owner: a get sends an empty message.
fn call_numbers(op: &Op, part: &Patch) -> u32
    requires { part.now.rows * part.now.cols ≤ 256 }
    ensures number { result ≡ call_numbers op.now part.now }
    ensures few { result ≤ 4 }
{
    match op {
        Op::Set { .. } => part_numbers(part),
        Op::Get { .. } => 1,
    }
}

/// How many the owner sends back.
fn answer_numbers(op: &Op, part: &Patch) -> u32
    requires { part.now.rows * part.now.cols ≤ 256 }
    ensures number { result ≡ answer_numbers op.now part.now }
    ensures few { result ≤ 4 }
{
    match op {
        Op::Set { .. } => 0,
        Op::Get { .. } => part_numbers(part),
    }
}

/// How many the calls of operation `k` send from one task to another.
fn going(plan: &Plan, k: u32, op: &Op, from: u32, to: u32) -> u32
    requires op { IsOp plan.now k op.now }
    requires to { to < tasks_of plan.now }
    ensures number { result ≡ going plan.now op.now from to }
    ensures few { result ≤ 4 }
{
    let whole = op.patch();
    let part = part_of(plan, &whole, to);
    if from == whole.task && is_nonempty(&part) {
        call_numbers(op, &part)
    } else {
        0
    }
}

/// How many the answers to them have on this link.
fn coming(plan: &Plan, k: u32, op: &Op, from: u32, to: u32) -> u32
    requires op { IsOp plan.now k op.now }
    requires from { from < tasks_of plan.now }
    ensures number { result ≡ coming plan.now op.now from to }
    ensures few { result ≤ 4 }
{
    let whole = op.patch();
    let part = part_of(plan, &whole, from);
    if to == whole.task && is_nonempty(&part) {
        answer_numbers(op, &part)
    } else {
        0
    }
}

/// How many the entry of a fence sends on this link.
fn joining(from: u32, to: u32) -> u32
    ensures number { result ≡ joining from to }
    ensures few { result ≤ 4 }
{
    if to == from { 0 } else { 1 }
}

/// How many the Poll of task `from` in this sweep of round `k` adds to its link to `to`.
pub fn new_numbers(plan: &Plan, k: u32, sweep: Sweep, from: u32, to: u32) -> u32
    requires plan { ValidPlan plan.now × (k < length plan.now.ops) }
    requires tasks { (from < tasks_of plan.now) × (to < tasks_of plan.now) }
    ensures number { result ≡ added plan.now (slice_get plan.now.ops k) (sweep_number sweep) from to }
    ensures few { result ≤ 8 }
{
    let op = op_at(plan, k);
    let is_later = op.patch().task < from;
    match sweep {
        Sweep::Calls if is_later => going(plan, k, op, from, to) + coming(plan, k, op, from, to),
        Sweep::Calls => going(plan, k, op, from, to),
        Sweep::Answers if is_later => 0,
        Sweep::Answers => coming(plan, k, op, from, to),
        Sweep::Fences => joining(from, to),
        Sweep::Rest => 0,
    }
}
