//! The schedule of a plan: a round for each operation. A round calls the operation's statements, sweeps twice, enters
//! the fence, sweeps twice again, and passes it. A sweep flushes every task: it polls, and then each entry that this
//! added is delivered, and the last acknowledgement of each wire.

ghost use Rattle.std.specs.Prelude.{◌≡◌, ℕ, ◌<◌, ◌≤◌, ◌==◌, ◌+◌, ◌++◌, ◌^◌, cond, length, OnOk, IfOk};
ghost use Rattle.lapi_flush.specs.Served.{delivers};
ghost use Rattle.lapi_flush.specs.Counted.{counted_part, some_steps, steps_each};
ghost use Rattle.lapi_blocks.specs.Plans.{ValidPlan, patch_of, tasks_of, part_of, is_nonempty, stores, own_statements};
ghost use Rattle.lapi_blocks.specs.PlanCounts.{counted_acts};
ghost use Rattle.lapi_array.specs.Counting.{entries_of, sweep_number, calls_of, Stand, IsAt, flush_lines, lines_of_sweep, lines_of_round};
ghost use Rattle.lapi_array.specs.Parts.{IsOp};

use crate::entries::Entries;
use crate::lines::Lines;
use crate::numbers::new_numbers;
use crate::part::{is_nonempty, op_at, part_of, tasks};
use crate::sweep::Sweep;
use lapi_base::{Act, Memory};
use lapi_blocks::{Op, Plan};
use std::alloc::Global;

/// The lines of all operations, in order.
#[tactic(auto, using(crate::proofs::ScheduleLines::no_rounds, crate::proofs::ScheduleLines::one_round))]
pub fn plan_lines(alloc: Global, plan: &Plan) -> Result<Lines, Memory>
    requires { ValidPlan plan.now }
    ensures { IfOk result (λ lines. lines ≡ counted_acts plan.now (length plan.now.ops)) }
{
    let mut lines = Lines::new(alloc);
    let mut entries = Entries::none();
    for k in 0..plan.ops.as_slice().len() as u32 {
        round(&mut lines, &mut entries, plan, k)?;
    }
    Ok(lines)
}

/// The lines of round `k`.
fn round(lines: &mut Lines, entries: &mut Entries, plan: &Plan, k: u32) -> Result<(), Memory>
    requires { IsAt plan.now k 0 0 (entries_of entries.old) }
    ensures lines { OnOk result (lines.new ≡ lines.old ++ lines_of_round plan.now k) }
    ensures entries { OnOk result (Stand plan.now (k + 1) 0 0 (entries_of entries.new)) }
{
    calls(lines, plan, k)?;
    sweep(lines, entries, plan, k, Sweep::Calls)?;
    sweep(lines, entries, plan, k, Sweep::Answers)?;
    fences(lines, plan)?;
    sweep(lines, entries, plan, k, Sweep::Fences)?;
    sweep(lines, entries, plan, k, Sweep::Rest)?;
    fences(lines, plan)?;
    Ok(())
}

/// Each task's calls.
#[tactic(auto, using(crate::proofs::ScheduleLines::no_tasks, crate::proofs::ScheduleLines::one_task))]
fn calls(lines: &mut Lines, plan: &Plan, k: u32) -> Result<(), Memory>
    requires { ValidPlan plan.now × (k < length plan.now.ops) }
    ensures { OnOk result (lines.new ≡ lines.old ++ steps_each (calls_of plan.now k) (tasks_of plan.now)) }
{
    for task in 0..tasks(plan) {
        steps(lines, task, call_count(plan, k, task))?;
    }
    Ok(())
}

/// One step of each task.
#[tactic(auto, using(crate::proofs::ScheduleLines::no_tasks, crate::proofs::ScheduleLines::one_task))]
fn fences(lines: &mut Lines, plan: &Plan) -> Result<(), Memory>
    requires { ValidPlan plan.now }
    ensures { OnOk result (lines.new ≡ lines.old ++ steps_each (λ a. 1) (tasks_of plan.now)) }
{
    for task in 0..tasks(plan) {
        steps(lines, task, 1)?;
    }
    Ok(())
}

/// So many steps of a task.
#[tactic(auto, using(crate::proofs::ScheduleLines::no_steps, crate::proofs::ScheduleLines::one_step))]
fn steps(lines: &mut Lines, task: u32, many: u32) -> Result<(), Memory>
    ensures { OnOk result (lines.new ≡ lines.old ++ some_steps task many) }
{
    for _step in 0..many {
        lines.push(Act::Step(task))?;
    }
    Ok(())
}

/// How many statements of operation `k` a task calls before the fence.
#[tactic(auto, using(crate::proofs::ScheduleLines::own_calls, crate::proofs::ScheduleLines::other_calls))]
fn call_count(plan: &Plan, k: u32, task: u32) -> u32
    requires { ValidPlan plan.now × (k < length plan.now.ops) }
    ensures { result ≡ calls_of plan.now k task }
{
    let op = op_at(plan, k);
    if op.patch().task == task {
        own_count(plan, k, op)
    } else {
        0
    }
}

/// Those of its own task: a set's store, and one for each part.
#[tactic(auto, using(crate::proofs::ScheduleLines::no_part, crate::proofs::ScheduleLines::part_owned, crate::proofs::ScheduleLines::part_not_owned, crate::proofs::ScheduleLines::all_counted))]
fn own_count(plan: &Plan, k: u32, op: &Op) -> u32
    requires { IsOp plan.now k op.now }
    ensures { result ≡ length (own_statements plan.now k op.now) }
{
    let mut count = store_count(op);
    for task in 0..tasks(plan) {
        if is_owner(plan, k, op, task) {
            count += 1;
        }
    }
    count
}

/// A set stores its values first.
fn store_count(op: &Op) -> u32
    ensures stores { (k : ℕ) → result ≡ length (stores k op.now) }
    ensures few { result ≤ 1 }
{
    match op {
        Op::Set { .. } => 1,
        Op::Get { .. } => 0,
    }
}

/// Whether a task owns some of the patch of operation `k`.
fn is_owner(plan: &Plan, k: u32, op: &Op, task: u32) -> bool
    requires op { IsOp plan.now k op.now }
    requires task { task < tasks_of plan.now }
    ensures { result ≡ is_nonempty (part_of plan.now (patch_of op.now) task) }
{
    let whole = op.patch();
    let part = part_of(plan, &whole, task);
    is_nonempty(&part)
}

/// The lines of a sweep of round `k`.
fn sweep(
    lines: &mut Lines,
    entries: &mut Entries,
    plan: &Plan,
    k: u32,
    sweep: Sweep,
) -> Result<(), Memory>
    requires { IsAt plan.now k (sweep_number sweep) 0 (entries_of entries.old) }
    ensures lines { OnOk result (lines.new ≡ lines.old ++ lines_of_sweep plan.now k (sweep_number sweep)) }
    ensures entries { OnOk result (Stand plan.now k (sweep_number sweep + 1) 0 (entries_of entries.new)) }
{
    for task in 0..tasks(plan) {
        flush(lines, entries, plan, k, sweep, task)?;
        count_flush(entries, plan, k, sweep, task);
    }
    Ok(())
}

/// The lines of the flush of a task.
fn flush(
    lines: &mut Lines,
    entries: &Entries,
    plan: &Plan,
    k: u32,
    sweep: Sweep,
    task: u32,
) -> Result<(), Memory>
    requires at { IsAt plan.now k (sweep_number sweep) task (entries_of entries.now) }
    requires task { task < tasks_of plan.now }
    ensures { OnOk result (lines.new ≡ lines.old ++ flush_lines plan.now k (sweep_number sweep) task) }
{
    lines.push(Act::Poll(task))?;
    for other in 0..tasks(plan) {
        let count = new_numbers(plan, k, sweep, task, other);
        let first = entries.of(task, other);
        let back = behind(entries, task, other, count);
        part(lines, task, other, first, back, count)?;
    }
    Ok(())
}

/// Behind how many entries of the wire back the acknowledgements go: the Poll itself adds some where a task sends to
/// itself.
fn behind(entries: &Entries, task: u32, other: u32, count: u32) -> u32
    requires tasks { (task < 8) × (other < 8) }
    requires room { entries_of entries.now other task + count < 2 ^ 32 }
    ensures { result ≡ entries_of entries.now other task + cond (other == task) count 0 }
{
    let before = entries.of(other, task);
    if other == task {
        before + count
    } else {
        before
    }
}

/// Delivers so many entries of a wire from `first` on, and then the last acknowledgement that they add to the wire back
/// behind `back` entries.
#[tactic(auto, using(crate::proofs::ScheduleLines::empty_part, crate::proofs::ScheduleLines::whole_part))]
fn part(
    lines: &mut Lines,
    from: u32,
    to: u32,
    first: u32,
    back: u32,
    count: u32,
) -> Result<(), Memory>
    requires { (first + count < 2 ^ 32) × (back + count < 2 ^ 32) }
    ensures { OnOk result (lines.new ≡ lines.old ++ counted_part from to first back count) }
{
    if count == 0 {
        return Ok(());
    }
    deliveries(lines, from, to, first, count)?;
    lines.push(Act::Deliver {
        a: to,
        b: from,
        k: back + (count - 1),
    })
}

#[tactic(auto, using(crate::proofs::ScheduleLines::none_delivered, crate::proofs::ScheduleLines::one_delivered))]
fn deliveries(lines: &mut Lines, from: u32, to: u32, first: u32, count: u32) -> Result<(), Memory>
    requires { first + count < 2 ^ 32 }
    ensures { OnOk result (lines.new ≡ lines.old ++ delivers from to first count) }
{
    for i in 0..count {
        lines.push(Act::Deliver {
            a: from,
            b: to,
            k: first + i,
        })?;
    }
    Ok(())
}

/// Counts what the flush of a task adds to the wires: each number, and its acknowledgement.
fn count_flush(entries: &mut Entries, plan: &Plan, k: u32, sweep: Sweep, task: u32)
    requires at { IsAt plan.now k (sweep_number sweep) task (entries_of entries.old) }
    requires task { task < tasks_of plan.now }
    ensures { Stand plan.now k (sweep_number sweep) (task + 1) (entries_of entries.new) }
{
    for other in 0..tasks(plan) {
        let count = new_numbers(plan, k, sweep, task, other);
        entries.add(task, other, count);
        entries.add(other, task, count);
    }
}
