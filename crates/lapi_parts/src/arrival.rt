//! What the packets handed over on a link tell.
ghost use Rattle.lapi_base.specs.Laws.Landing.{DeliveriesWrite, DeliveriesAnnounce};
ghost use Rattle.lapi_base.specs.Laws.Receiving.{AcksAreTold, NextAcksAreTold, ArrivalsAreTold, RepeatsAreKnown, PacketsAreInReach, FewAreThereInPart};
ghost use Rattle.lapi_base.specs.Record.WorldView.{HoldsOfRecords};

/// The acknowledgement is told by the packets handed over, and the events of an arrival by them and the packet. A
/// packet whose number was handed over before was itself handed over.
pub fn arrivals_are_told()
    ensures acks { HoldsOfRecords AcksAreTold }
    ensures next_acks { HoldsOfRecords NextAcksAreTold }
    ensures events { HoldsOfRecords ArrivalsAreTold }
    ensures repeats { HoldsOfRecords RepeatsAreKnown }
{}

/// A packet's number is below the least that wasn't handed over, plus the window; and at most as many messages of a link
/// as the window has numbers are there in part.
pub fn arrivals_stay_in_reach()
    ensures reach { HoldsOfRecords PacketsAreInReach }
    ensures partial { HoldsOfRecords FewAreThereInPart }
{}

/// What a delivery does to the memory and the counters of its task: where it makes a message whole it writes the bytes
/// that came and announces a counter, both as the packet's head says, and else nothing.
pub fn deliveries_are_told()
    ensures memory { HoldsOfRecords DeliveriesWrite }
    ensures counters { HoldsOfRecords DeliveriesAnnounce }
{}
