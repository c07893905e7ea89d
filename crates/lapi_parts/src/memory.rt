//! The bytes that come to a task, and what they leave in its memory.
ghost use Rattle.lapi_base.specs.Laws.Headline.{HoldsOfAtomic};
ghost use Rattle.lapi_base.specs.Laws.Landing.{CarriedHaveLength, AllAreBytes, BuffersAreHeld, BytesComeWhole, LandedAreWhole, OthersWriteNothing, StoresWrite, LandingsWrite, EndsWrite};
ghost use Rattle.lapi_base.specs.Record.WorldView.{HoldsOfRecords};

/// The payloads of a message whose fragments are all there are its bytes, in order; what has landed came whole.
pub fn messages_come_whole()
    ensures bytes { HoldsOfAtomic BytesComeWhole }
    ensures landed { HoldsOfRecords LandedAreWhole }
{}

/// A task's memory is written by its own events alone: a store writes its bytes, a landing what came in, and the end
/// of a job its effect on the buffer as it stood when the job began.
pub fn memories_are_written()
    ensures others { HoldsOfAtomic OthersWriteNothing }
    ensures stores { HoldsOfAtomic StoresWrite }
    ensures landings { HoldsOfAtomic LandingsWrite }
    ensures ends { HoldsOfAtomic EndsWrite }
{}

/// A message carries as many bytes as its statement says; all that memories, messages and buffers hold are bytes; and a
/// job holds its buffer as it stood when the job began.
pub fn bytes_stay_bytes()
    ensures length { HoldsOfAtomic CarriedHaveLength }
    ensures bytes { HoldsOfAtomic AllAreBytes }
    ensures buffers { HoldsOfAtomic BuffersAreHeld }
{}
