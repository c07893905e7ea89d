//! A plan's text, read line by line.

ghost use Rattle.std.specs.Prelude.{◌≡◌, ◌≤◌, length, Ok, IfOk};
ghost use Rattle.lapi_base.specs.Input.Lines.{lines_of};
ghost use Rattle.lapi_base.specs.Input.Reading.{most_input};
ghost use Rattle.lapi_blocks.specs.declared.plan.Plan.{Plan};
ghost use Rattle.lapi_array.specs.PlanRows.{IsPlanText};
ghost use Rattle.lapi_array.specs.PlanReading as reading;
ghost use Rattle.lapi_array.specs.PlanReading.{plan_of};
ghost use Rattle.lapi_array.specs.PlanStates.{plan_state_of};
ghost use Rattle.lapi_array.specs.PlanAnswers.{GivesPlan, PlanFaultIsFirst};

use crate::plan_state::{PlanState, plan_after};
use lapi_base::{LONGEST_INPUT, ReadFault, Which};
use lapi_blocks::Plan;
use lapi_script::reading::{at_line, first_line};
use std::alloc::Global;

/// The plan, where all lines were read; the next line would be this one.
fn finished(state: PlanState, line: u32) -> Result<Plan, ReadFault>
    ensures { GivesPlan result (plan_of line (plan_state_of state)) }
{
    match state {
        PlanState::Finished(plan) => Ok(plan),
        PlanState::First | PlanState::Second | PlanState::Operations(_) => {
            Err(ReadFault::Syntax { line })
        }
    }
}

/// What reading line after line gives.
#[tactic(auto, using(crate::proofs::PlanOnward::plan_goes_on, crate::proofs::PlanOnward::plan_ends))]
fn read_lines(alloc: Global, bytes: &[u8]) -> Result<Plan, ReadFault>
    ensures { GivesPlan result (reading.read_plan bytes.now) }
{
    if bytes.len() > LONGEST_INPUT {
        return Err(ReadFault::Limit {
            which: Which::Input,
            line: 0,
        });
    }
    let mut state = PlanState::First;
    let mut rest = bytes;
    let mut line: u32 = 1;
    while !rest.is_empty() {
        let (text, following) = first_line(rest);
        match plan_after(alloc, &mut state, text) {
            Err(fault) => return Err(at_line(fault, line)),
            Ok(()) => rest = following,
        }
        line += 1;
    }
    finished(state, line)
}

/// The plan that the bytes spell, or the first fault and its line. More bytes than [`LONGEST_INPUT`] are refused
/// before all lines.
pub fn read_plan(alloc: Global, bytes: &[u8]) -> Result<Plan, ReadFault>
    // What is read is spelled so, within all limits.
    ensures found { IfOk result (λ plan. IsPlanText plan bytes.now) }
    // What is spelled so is read, unless memory runs out.
    ensures only { (plan : Plan) → length bytes.now ≤ most_input → IsPlanText plan bytes.now
        → GivesPlan result (Ok plan) }
    // The line of a fault is the first up to which the lines begin no plan's text.
    ensures first { length bytes.now ≤ most_input → PlanFaultIsFirst (lines_of bytes.now) result }
    // Which fault it is, and at which line.
    ensures exact { GivesPlan result (reading.read_plan bytes.now) }
{
    read_lines(alloc, bytes)
}
