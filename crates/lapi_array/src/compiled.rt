//! The input that runs a plan.

ghost use Rattle.std.specs.Prelude.{◌≡◌, ◌≤◌, ◌*◌, length, IfOk};
ghost use Rattle.lapi_base.specs.Packet.Spelling.{spells_packet};
ghost use Rattle.lapi_base.specs.Record.Valid.{ValidSchedule};
ghost use Rattle.lapi_blocks.specs.Plans.{ValidPlan, compiled};
ghost use Rattle.lapi_array.specs.PlanEnds.{EndsPlan};

use crate::compiling::array_script;
use crate::schedule::plan_lines;
use lapi_base::{Input, Memory};
use lapi_blocks::Plan;
use std::alloc::Global;

/// The script of a plan, and a schedule that runs it to its end: after its lines every task is past its last statement,
/// and nothing is under way.
pub fn compile(alloc: Global, plan: &Plan) -> Result<Input, Memory>
    requires { ValidPlan plan.now }
    ensures script { IfOk result (λ input. input.script ≡ compiled plan.now) }
    ensures valid { IfOk result (λ input. ValidSchedule (compiled plan.now) spells_packet input.schedule) }
    ensures few { IfOk result (λ input. length input.schedule ≤ 313 * length plan.now.ops) }
    ensures ends { IfOk result (λ input. EndsPlan plan.now input.schedule) }
{
    let script = array_script(alloc, plan)?;
    let lines = plan_lines(alloc, plan)?;
    let schedule = lines.into_schedule();
    Ok(Input { script, schedule })
}
