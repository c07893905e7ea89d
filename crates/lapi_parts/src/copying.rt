//! The messages that were copied, and when they are done.
ghost use Rattle.lapi_base.specs.Laws.Copying.{CopiedAreAccepted, JoinsAreCopiedTogether, DoneByCount, AcksLowerCounts, CopiesCountAll, CountsStay};
ghost use Rattle.lapi_base.specs.Laws.Headline.{HoldsOfAtomic};
ghost use Rattle.lapi_base.specs.Record.WorldView.{HoldsOfRecords};

/// What is refused is not copied: no reason holds against the statement of a message that was copied.
pub fn copied_are_accepted()
    ensures { HoldsOfAtomic CopiedAreAccepted }
{}

/// The joins of a collective call are copied all at once.
pub fn joins_are_copied_together()
    ensures { HoldsOfRecords JoinsAreCopiedTogether }
{}

/// The data of an operation that brings nothing back are done where they were copied and none of their numbers is
/// unacknowledged. An acknowledgement lowers that count by the numbers that it covers as the first one, a copy sets it to
/// the count of the fragments, and it stays through all other lines.
pub fn done_by_count()
    ensures done { HoldsOfRecords DoneByCount }
    ensures lowers { HoldsOfRecords AcksLowerCounts }
    ensures copies { HoldsOfRecords CopiesCountAll }
    ensures stays { HoldsOfRecords CountsStay }
{}
