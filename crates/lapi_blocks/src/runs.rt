//! How the script of a plan is run to its end.
ghost use Rattle.lapi_blocks.specs.PlanRuns.{PlansRun, PlansAreShort, PlansAreValid};
ghost use Rattle.lapi_blocks.specs.PlanCounts.{PlansAreCounted};

/// A valid plan's lines bring every task of its script past its last statement, and its record is quiet then; there are
/// few lines for each operation, and they are valid.
pub fn plans_run()
    ensures whole { PlansRun }
    ensures short { PlansAreShort }
    ensures valid { PlansAreValid }
{}

/// How many entries each wire has after each flush of these lines is told by the plan alone, and so are the lines.
pub fn plans_are_counted()
    ensures { PlansAreCounted }
{}
