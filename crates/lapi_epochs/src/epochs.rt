//! What the global fences of a script order.
ghost use Rattle.lapi_base.specs.Laws.Headline.{HoldsOfAtomic, HoldsOfJournals};
ghost use Rattle.lapi_epochs.specs.Epochs.{EpochsWait};

/// Where a task has come to a statement, the statements of all earlier epochs of all tasks are over.
pub fn epochs_wait()
    ensures atomic { HoldsOfAtomic EpochsWait }
    ensures runs { HoldsOfJournals EpochsWait }
{}
