//! What one task's part of a record tells.
ghost use Rattle.lapi_base.specs.Laws.Locality.{SameStatements, SameLinks, SameJobs, SameMemory, IsToldByPart, ActsAlike, OthersStay, EventsAreOwn};
ghost use Rattle.lapi_base.specs.Record.WorldView.{HoldsOfRecords};

/// Two records with the same part at a task tell the same of its statements, of the links from it and what a poll or
/// a tick sends on them, of its jobs with their buffers, and of its memory.
pub fn parts_decide()
    ensures statements { IsToldByPart SameStatements }
    ensures links { IsToldByPart SameLinks }
    ensures jobs { IsToldByPart SameJobs }
    ensures memory { IsToldByPart SameMemory }
{}

/// A line changes the part of its own task alone: all events that it adds are there.
pub fn parts_are_apart()
    ensures others { HoldsOfRecords OthersStay }
    ensures own { HoldsOfRecords EventsAreOwn }
{}

/// An act at a task has the same reply in both of two records with the same part there, and leaves them with the same
/// part. Where the switch hands over an entry, both have the same one.
pub fn parts_go_on_alike()
    ensures { IsToldByPart ActsAlike }
{}
