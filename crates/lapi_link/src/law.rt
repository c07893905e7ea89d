//! What the receiving end of a link may take, by the packets that it stands for.
ghost use Rattle.lapi_link.specs.Receiver.{WhatArrivesMayBeTaken, WholeIsComplete};

/// A packet that may come to those that were handed over on a link may be taken by the link's receiving end. With a new
/// number the end has the whole message then exactly where all its fragments have come.
pub fn what_arrives_may_be_taken()
    ensures taken { WhatArrivesMayBeTaken }
    ensures whole { WholeIsComplete }
{}
