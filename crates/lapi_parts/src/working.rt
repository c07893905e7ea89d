//! The jobs of completion handlers, and the workers that run them.
ghost use Rattle.lapi_base.specs.Laws.Headline.{HoldsOfAtomic};
ghost use Rattle.lapi_base.specs.Laws.Working.{QueuedAreWaiting, RunningWereBegun, WorkersStay, HeldStay};
ghost use Rattle.lapi_base.specs.Record.WorldView.{HoldsOfRecords};

/// What waits at a task is a job of it that has landed and was not begun; what runs at one of its workers was begun and has
/// not ended.
pub fn jobs_are_begun_in_turn()
    ensures waiting { HoldsOfAtomic QueuedAreWaiting }
    ensures running { HoldsOfAtomic RunningWereBegun }
{}

/// What a worker runs stays through all lines but its own, and the buffer of a job stays as it was held when the job began.
pub fn jobs_run_undisturbed()
    ensures workers { HoldsOfRecords WorkersStay }
    ensures held { HoldsOfRecords HeldStay }
{}
