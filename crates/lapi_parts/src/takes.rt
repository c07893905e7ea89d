//! The lines that a world takes, and the record of them.
ghost use Rattle.lapi_base.specs.Laws.LinesTaken.{BeginsEmpty, TakesOneMore, TakesAll, TakesValid, StartIsRecord, RecordsGoOn, TakenIsRecord};

/// A world that took no line has the empty record, each line taken adds what its act does, and all lines taken in
/// order have the record of the whole schedule. The acts of a valid schedule's lines are valid, whichever are taken.
pub fn lines_are_taken()
    ensures first { BeginsEmpty }
    ensures more { TakesOneMore }
    ensures whole { TakesAll }
    ensures valid { TakesValid }
{}

/// The empty record is one of valid acts, a valid act more makes another of it, and the lines taken of a valid schedule
/// have one.
pub fn records_go_on()
    ensures start { StartIsRecord }
    ensures more { RecordsGoOn }
    ensures taken { TakenIsRecord }
{}
