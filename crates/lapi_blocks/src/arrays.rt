//! What the tasks of a compiled plan hold in the end.
ghost use Rattle.lapi_blocks.specs.Arrays.{BlocksArePlain, GotArePlain, GotBytesArePlain, HoldsOfPlans, HoldsOfPlanRuns};

/// Once every task is past its last statement, the blocks hold the plain array as all operations leave it, and the
/// area of each get holds its patch as the operations before it left that.
pub fn arrays_are_plain()
    ensures blocks { HoldsOfPlans BlocksArePlain }
    ensures got { HoldsOfPlans GotArePlain }
    ensures bytes { HoldsOfPlans GotBytesArePlain }
    ensures blocks_of_runs { HoldsOfPlanRuns BlocksArePlain }
    ensures got_of_runs { HoldsOfPlanRuns GotArePlain }
    ensures bytes_of_runs { HoldsOfPlanRuns GotBytesArePlain }
{}
