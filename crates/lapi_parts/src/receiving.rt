//! What a task may rely on of a packet that comes in.
ghost use Rattle.lapi_base.specs.Laws.Receiving.{AcksCoverSent, PacketsFitScript, HeadsAgree, NewAreOpen, NewHaveRoom};
ghost use Rattle.lapi_base.specs.Record.WorldView.{HoldsOfRecords};

/// An acknowledgement covers numbers alone that were sent. A data packet keeps to the script, and its head and length
/// are those of its message's packets that came before.
pub fn arrivals_fit()
    ensures acks { HoldsOfRecords AcksCoverSent }
    ensures script { HoldsOfRecords PacketsFitScript }
    ensures heads { HoldsOfRecords HeadsAgree }
{}

/// Of a packet with a new number, the message hasn't landed and the fragment isn't there; and where it is the first of
/// its message, there is room for one message more.
pub fn new_arrivals_have_room()
    ensures open { HoldsOfRecords NewAreOpen }
    ensures room { HoldsOfRecords NewHaveRoom }
{}
