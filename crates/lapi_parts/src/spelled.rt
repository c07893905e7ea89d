//! The spellings of the packets on the wires of a record.
ghost use Rattle.lapi_base.specs.Laws.Entries.{PacketsArePlaced, PacketsHaveLayout, PacketsAreSpelled, PacketsAreWritten};
ghost use Rattle.lapi_base.specs.Record.WorldView.{HoldsOfRecords};

/// Each packet on a wire goes from the wire's one end to its other, so none reaches another task than its own, and has
/// the script's layout. On a wire of a valid script it has a spelling: the bytes that are written for it.
pub fn packets_are_spelled()
    ensures placed { HoldsOfRecords PacketsArePlaced }
    ensures layout { HoldsOfRecords PacketsHaveLayout }
    ensures spelled { HoldsOfRecords PacketsAreSpelled }
    ensures written { HoldsOfRecords PacketsAreWritten }
{}
