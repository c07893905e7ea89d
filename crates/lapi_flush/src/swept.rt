//! What sweeps, in which each task is flushed once, leave.
ghost use Rattle.lapi_base.specs.Record.WorldView.{HoldsOfRecords};
ghost use Rattle.lapi_flush.specs.Swept.{SweepsAreSwept};
ghost use Rattle.lapi_flush.specs.Settled.{TwoSweepsSettle};

/// After a flush of every task, all that was ready at a task has landed; and after two, nothing is under way.
pub fn sweeps_settle()
    ensures swept { HoldsOfRecords SweepsAreSwept }
    ensures settled { HoldsOfRecords TwoSweepsSettle }
{}
