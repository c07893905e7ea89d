//! What served parts of a schedule, and flushes of tasks, leave.
ghost use Rattle.lapi_base.specs.Record.WorldView.{HoldsOfRecords};
ghost use Rattle.lapi_flush.specs.Served.{PartsAreServed};
ghost use Rattle.lapi_flush.specs.Flushed.{FlushesAreFlushed};
ghost use Rattle.lapi_flush.specs.Counted.{FlushesAreCounted};

/// After some entries of a wire were delivered, and then the last acknowledgement that they added, all that was sent on
/// the link is acknowledged, each message whose numbers were all sent has landed, and no data packet was added.
pub fn parts_are_served()
    ensures { HoldsOfRecords PartsAreServed }
{}

/// After a Poll of a task and a served part for each link that it added to, all that was ready at the task has landed,
/// and all numbers of its links are acknowledged.
pub fn flushes_are_flushed()
    ensures flushed { HoldsOfRecords FlushesAreFlushed }
    // How many entries each wire has then, and which lines they are, is told by how many numbers the Poll adds.
    ensures counted { HoldsOfRecords FlushesAreCounted }
{}
