//! What follows a landing, and what handlers answer, by the packet that came.
ghost use Rattle.lapi_base.specs.Laws.Answering.{BacksFollowHeads, BacksBringOld, NotesFollowHeads, HandlersAnswerHeads, ActivesNameCounters, EndsFollowJobs, HoldsOfJobs};
ghost use Rattle.lapi_base.specs.Record.WorldView.{HoldsOfRecords};

/// A back has its head, length and ends by the head of its go, and brings what stood there before the delivery that
/// landed the go: of a read-modify-write too, the word as it was.
pub fn backs_are_told()
    ensures heads { HoldsOfRecords BacksFollowHeads }
    ensures bytes { HoldsOfRecords BacksBringOld }
{}

/// A note has the kind and the counter that the head of its go names. Where a completion handler runs first, the note or
/// the echo is of the job: it has the counter of its statement, and the echo its user value.
pub fn notes_are_told()
    ensures heads { HoldsOfRecords NotesFollowHeads }
    ensures jobs { HoldsOfJobs EndsFollowJobs }
{}

/// The buffer, the completion handler and the user value of an active message are those that its header handler answers
/// for the origin, the user header and the length of each of its packets. Its statement names the counters of the head.
pub fn handlers_are_told()
    ensures answers { HoldsOfRecords HandlersAnswerHeads }
    ensures counters { HoldsOfRecords ActivesNameCounters }
{}
