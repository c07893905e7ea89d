//! What holds of the fences of an atomic journal, and so of every run's.
ghost use Rattle.lapi_base.specs.Laws.Headline.{FencesWait, GlobalFencesWait, HoldsOfAtomic, HoldsOfJournals};

/// A fence passes only where earlier data have landed: the task's own, and at a global fence those of all tasks.
pub fn fences_wait()
    ensures atomic { HoldsOfAtomic FencesWait }
    ensures global_atomic { HoldsOfAtomic GlobalFencesWait }
    ensures runs { HoldsOfJournals FencesWait }
    ensures global_runs { HoldsOfJournals GlobalFencesWait }
{}
