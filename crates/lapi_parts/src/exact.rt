//! The packets on the wires of a record.
ghost use Rattle.lapi_base.specs.Laws.Entries.{CarriedIsFixed, PutAreOfNumber, HandedAreOfNumber};
ghost use Rattle.lapi_base.specs.Laws.Headline.{HoldsOfAtomic};
ghost use Rattle.lapi_base.specs.Record.WorldView.{HoldsOfRecords};

/// What a message carries is fixed by its Copy. So each entry of a wire, and each packet handed over, is that of its
/// number by the journal as it is now, however long ago it was put there.
pub fn packets_are_exact()
    ensures fixed { HoldsOfAtomic CarriedIsFixed }
    ensures put { HoldsOfRecords PutAreOfNumber }
    ensures handed { HoldsOfRecords HandedAreOfNumber }
{}
