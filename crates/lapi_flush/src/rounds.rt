//! How scripts of stores, puts, gets and global fences are run, one round of calls after another.
ghost use Rattle.lapi_base.specs.Record.WorldView.{HoldsOfRecords};
ghost use Rattle.lapi_flush.specs.Rounds.{RoundsGoOn};

/// The lines of a round lead from the beginning of one round to that of the next.
pub fn rounds_go_on()
    ensures { HoldsOfRecords RoundsGoOn }
{}
