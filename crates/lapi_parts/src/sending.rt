//! What a task may rely on of the numbers that it sends.
ghost use Rattle.lapi_base.specs.Record.WorldView.{HoldsOfRecords};
ghost use Rattle.lapi_base.specs.Laws.Sending.{SentAreFront, SentAreNumbers, AckedAreSent, SentHaveBound, PollsSendNext};

/// The numbers of a link go out in order: with a number all below it were sent. Each is a number of the link, and what
/// was acknowledged was sent.
pub fn numbers_go_out_in_order()
    ensures front { HoldsOfRecords SentAreFront }
    ensures numbers { HoldsOfRecords SentAreNumbers }
    ensures acked { HoldsOfRecords AckedAreSent }
{}

/// The numbers sent on a link are those below one bound, and a poll sends those from there on, as far as the link and
/// the window go.
pub fn polls_send_the_next_numbers()
    ensures bound { HoldsOfRecords SentHaveBound }
    ensures next { HoldsOfRecords PollsSendNext }
{}
