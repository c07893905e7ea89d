//! What was read so far of a plan's text, and what a line adds to it.
//!
//! ```text
//! First -> Second -> Operations (each operation) -> Finished
//! ```

ghost use Rattle.std.specs.Prelude.{◌≡◌, ◌*◌};
ghost use Rattle.lapi_blocks.specs.declared.plan.Plan.{Plan};
ghost use Rattle.lapi_blocks.specs.Plans.{patch_of};
ghost use Rattle.lapi_script.specs.Gives.{Gives};
ghost use Rattle.lapi_array.specs.PlanReading.{has_values, has_few_words, is_in_range, on_op, plan_step, plan_after};
ghost use Rattle.lapi_array.specs.PlanStates.{plan_state_of};

use crate::grid::{checked_grid, grid, head};
use crate::op_line::op_line;
use lapi_base::Which;
use lapi_blocks::{Op, Patch, Plan};
use lapi_script::reading::{LineFault, Words, is_clean, limit, syntax};
use std::alloc::Global;
use std::mem;

/// The most operations of a plan.
const MOST_OPS: usize = 48;

/// What was read so far, by which line is awaited.
#[derive(Debug, Drop)]
pub enum PlanState {
    First,
    Second,
    Operations(Plan),
    Finished(Plan),
}

/// Whether a set has four bytes for each word.
#[tactic(auto, unfolding(crate::specs::PlanReading::has_values))]
fn has_values(op: &Op) -> bool
    ensures { result ≡ has_values op.now }
{
    match op {
        Op::Set {
            rows,
            cols,
            values,
            ..
        } => {
            let len = values.as_slice().len() as u64;
            let words = u64::from(*rows) * u64::from(*cols);
            len % 4 == 0 && len / 4 == words
        }
        Op::Get { .. } => true,
    }
}

fn has_few_words(patch: &Patch) -> bool
    ensures { result ≡ has_few_words patch.now }
{
    let words = u64::from(patch.rows) * u64::from(patch.cols);
    words >= 1 && words <= 256
}

/// Whether the patch lies within an array of so many rows and columns.
fn is_in_range(patch: &Patch, height: u64, width: u64) -> bool
    ensures { (plan : Plan) → plan.p * plan.height ≡ height → plan.q * plan.width ≡ width
        → result ≡ is_in_range plan patch.now }
{
    let lower = u64::from(patch.row) + u64::from(patch.rows);
    let right = u64::from(patch.col) + u64::from(patch.cols);
    lower <= height && right <= width
}

fn on_op(mut plan: Plan, op: Op) -> Result<PlanState, LineFault>
    ensures { Gives plan_state_of result (on_op plan op) }
{
    let patch = op.patch();
    if u64::from(patch.task) >= u64::from(plan.p) * u64::from(plan.q) || !has_values(&op) {
        return Err(syntax());
    }
    if plan.ops.as_slice().len() >= MOST_OPS {
        return Err(limit(Which::Ops));
    }
    if !has_few_words(&patch) {
        return Err(limit(Which::Patch));
    }
    let height = u64::from(plan.p) * u64::from(plan.height);
    let width = u64::from(plan.q) * u64::from(plan.width);
    if !is_in_range(&patch, height, width) {
        return Err(limit(Which::Range));
    }
    plan.ops.push(op)?;
    Ok(PlanState::Operations(plan))
}

/// What a line of these words adds.
#[tactic(auto, unfolding(crate::specs::PlanReading::plan_step))]
fn plan_step(alloc: Global, state: PlanState, words: &mut Words) -> Result<PlanState, LineFault>
    ensures { Gives plan_state_of result (plan_step (plan_state_of state) words.old) }
{
    match state {
        PlanState::First => {
            if head(words)? != 1 {
                return Err(syntax());
            }
            Ok(PlanState::Second)
        }
        PlanState::Second => Ok(PlanState::Operations(checked_grid(grid(alloc, words)?)?)),
        PlanState::Operations(plan) => {
            if words.are_only(b"done") {
                return Ok(PlanState::Finished(plan));
            }
            on_op(plan, op_line(alloc, words)?)
        }
        PlanState::Finished(_) => Err(syntax()),
    }
}

/// What a line adds.
#[tactic(auto, unfolding(crate::specs::PlanReading::plan_after))]
pub fn plan_after(alloc: Global, state: &mut PlanState, line: &[u8]) -> Result<(), LineFault>
    ensures { Gives (λ _. plan_state_of state.new) result (plan_after (plan_state_of state.old) line.now) }
{
    if !is_clean(line) {
        return Err(syntax());
    }
    let mut words = Words::new(line);
    if words.are_skipped() {
        return Ok(());
    }
    *state = plan_step(alloc, mem::replace(state, PlanState::First), &mut words)?;
    Ok(())
}
