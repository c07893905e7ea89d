//! What a record tells of a task's refusals and reads.
ghost use Rattle.lapi_base.specs.Laws.Rising.{StatementsRise};
ghost use Rattle.lapi_base.specs.Record.WorldView.{HoldsOfRecords};

/// What was refused of a task stands by rising statement, and so does what it read.
pub fn statements_rise()
    ensures { HoldsOfRecords (λ script rules r. StatementsRise script rules r.journal) }
{}
