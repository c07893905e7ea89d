//! The journal of every record.
ghost use Rattle.std.specs.Prelude.{reverse};
ghost use Rattle.lapi_base.specs.Record.Atomic.{Atomic, AtomicInTime};
ghost use Rattle.lapi_base.specs.Laws.Headline.{HoldsOfRuns, HoldsOfJournals};

/// It is that of the atomic message machine, read from the newest event back, and in the order of time.
pub fn journal_is_atomic()
    ensures newest_first { HoldsOfJournals Atomic }
    ensures in_time { HoldsOfRuns (λ script rules r. AtomicInTime script rules (reverse r.journal)) }
{}
