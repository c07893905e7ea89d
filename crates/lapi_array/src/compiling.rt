//! The script of a plan.

ghost use Rattle.std.specs.Prelude.{◌≡◌, ◌<◌, ◌++◌, length, slice_get, Some, OnOk, IfOk};
ghost use Rattle.lapi_blocks.specs.Plans.{ValidPlan, tasks_of, patch_of, moves, stores, own_statements, op_statements, first_statements, compiled};
ghost use Rattle.lapi_array.specs.Parts.{IsOp, IsPart};
ghost use Rattle.lapi_array.specs.Owned.{moves_below};

use crate::part::{area, area_side, block_side, is_nonempty, op_at, part_of, tasks};
use lapi_base::{Memory, Script, Statement, StatementLists, Statements};
use lapi_blocks::{Op, Patch, Plan};
use std::alloc::Global;

/// The bytes of each task's memory.
const MEMORY: u32 = 65_536;

/// The script of a plan: each operation in order, of which each task waits for the end.
#[tactic(auto, using(crate::proofs::Listed::map_first, crate::proofs::Listed::map_more))]
pub fn array_script(alloc: Global, plan: &Plan) -> Result<Script, Memory>
    requires { ValidPlan plan.now }
    ensures { IfOk result (λ script. script ≡ compiled plan.now) }
{
    let mut lists = StatementLists::new(alloc);
    for task in 0..tasks(plan) {
        lists.push(statements(alloc, plan, task)?)?;
    }
    Ok(Script {
        layout: 1,
        tasks: tasks(plan),
        memory: MEMORY,
        counters: 0,
        workers: 1,
        lists,
    })
}

/// The statements of a task.
#[tactic(auto, using(crate::proofs::Listed::none_first, crate::proofs::Listed::one_more))]
fn statements(alloc: Global, plan: &Plan, task: u32) -> Result<Statements, Memory>
    requires { ValidPlan plan.now × (task < tasks_of plan.now) }
    ensures { IfOk result (λ list. list ≡ first_statements plan.now (length plan.now.ops) task) }
{
    let mut list = Statements::new(alloc);
    for k in 0..plan.ops.as_slice().len() as u32 {
        op_statements(alloc, &mut list, plan, k, task)?;
        list.push(Statement::Gfence)?;
    }
    Ok(list)
}

/// Appends the statements of operation `k` at a task, before the fence.
fn op_statements(
    alloc: Global,
    list: &mut Statements,
    plan: &Plan,
    k: u32,
    task: u32,
) -> Result<(), Memory>
    requires { ValidPlan plan.now × (k < length plan.now.ops) }
    ensures { OnOk result (list.new ≡ list.old ++ op_statements plan.now k (slice_get plan.now.ops k) task) }
{
    let op = op_at(plan, k);
    if op.patch().task != task {
        return Ok(());
    }
    store(alloc, list, k, op)?;
    transfers(list, plan, k, op)?;
    Ok(())
}

/// A set stores its values into its area.
fn store(alloc: Global, list: &mut Statements, k: u32, op: &Op) -> Result<(), Memory>
    requires { k < 48 }
    ensures { OnOk result (list.new ≡ list.old ++ stores k op.now) }
{
    match op {
        Op::Set { values, .. } => list.push(Statement::Store {
            at: area(k),
            bytes: values.copy(alloc)?,
        }),
        Op::Get { .. } => Ok(()),
    }
}

/// Appends the statement on each part.
#[tactic(auto, using(crate::proofs::Listed::none_owned, crate::proofs::Listed::owned_more, crate::proofs::Listed::owned_less))]
fn transfers(list: &mut Statements, plan: &Plan, k: u32, op: &Op) -> Result<(), Memory>
    requires { IsOp plan.now k op.now }
    ensures { OnOk result (list.new ≡ list.old ++ moves_below plan.now k op.now (tasks_of plan.now)) }
{
    let whole = op.patch();
    for task in 0..tasks(plan) {
        let part = part_of(plan, &whole, task);
        if is_nonempty(&part) {
            list.push(transfer(plan, k, op, &part))?;
        }
    }
    Ok(())
}

/// The statement of an operation on one part: a set puts it from the area to the block, a get the other way round.
fn transfer(plan: &Plan, k: u32, op: &Op, part: &Patch) -> Statement
    requires { IsPart plan.now k op.now part.now }
    ensures { result ≡ moves plan.now k op.now part.now }
{
    let block = block_side(plan, k, op, part);
    let area = area_side(plan, k, op, part);
    match op {
        Op::Set { .. } => Statement::Putv {
            target: part.task,
            to: block,
            from: area,
            tgt: None,
            org: None,
            cmpl: None,
        },
        Op::Get { .. } => Statement::Getv {
            target: part.task,
            from: block,
            to: area,
            tgt: None,
            org: None,
        },
    }
}
