//! The first two lines of a plan's text.

ghost use Rattle.std.specs.Prelude.{◌≡◌};
ghost use Rattle.lapi_base.specs.Input.Forms.{run};
ghost use Rattle.lapi_script.specs.Gives.{Gives};
ghost use Rattle.lapi_array.specs.PlanReading.{head_form, grid_form, checked_grid};

use lapi_base::Which;
use lapi_blocks::{Ops, Plan};
use lapi_script::reading::{LineFault, Words, end, keyword, limit, number};
use std::alloc::Global;

/// The version.
#[tactic(auto, unfolding(crate::specs::PlanReading::head_form))]
pub fn head(words: &mut Words) -> Result<u32, LineFault>
    ensures { Gives (λ version. version) result (run head_form words.old) }
{
    keyword(words, b"array")?;
    let version = number(words)?;
    end(words)?;
    Ok(version)
}

/// A plan of these sizes without operations.
#[tactic(auto, unfolding(crate::specs::PlanReading::grid_form))]
pub fn grid(alloc: Global, words: &mut Words) -> Result<Plan, LineFault>
    ensures { Gives (λ plan. plan) result (run grid_form words.old) }
{
    keyword(words, b"grid")?;
    let p = number(words)?;
    let q = number(words)?;
    keyword(words, b"block")?;
    let height = number(words)?;
    let width = number(words)?;
    end(words)?;
    Ok(Plan {
        p,
        q,
        height,
        width,
        ops: Ops::new(alloc),
    })
}

/// The plan, where its sizes keep their limits.
pub fn checked_grid(plan: Plan) -> Result<Plan, LineFault>
    ensures { Gives (λ plan. plan) result (checked_grid plan) }
{
    let tasks = u64::from(plan.p) * u64::from(plan.q);
    if tasks < 2 || tasks > 8 {
        return Err(limit(Which::Grid));
    }
    if plan.height < 1 || plan.height > 16 || plan.width < 1 || plan.width > 256 {
        return Err(limit(Which::Block));
    }
    Ok(plan)
}
