//! What is bounded on every link.
ghost use Rattle.lapi_base.specs.Laws.Headline.{HoldsOfRuns};
ghost use Rattle.lapi_base.specs.Laws.Links.{AckedAreDelivered, SentAreInWindow, StaysInWindow, OwedAreHeldBack, TellsAtOnce, FewArePartial, NumbersAreFew, NumbersAreSmall};

/// What is acknowledged was delivered, and what was sent lies in the window of the sender, and of the receiver.
pub fn window_is_kept()
    ensures delivered { HoldsOfRuns AckedAreDelivered }
    ensures sent { HoldsOfRuns SentAreInWindow }
    ensures reach { HoldsOfRuns StaysInWindow }
{}

/// An acknowledgement is owed where the layout holds it back, and nowhere else. Where it holds none back, each
/// delivery of a data packet is acknowledged at once, and a poll sends data alone.
pub fn owed_are_held_back()
    ensures held { HoldsOfRuns OwedAreHeldBack }
    ensures told { HoldsOfRuns TellsAtOnce }
{}

/// At most as many messages of a link are there in part as the window has numbers.
pub fn few_are_partial()
    ensures { HoldsOfRuns FewArePartial }
{}

/// A link of a valid script has few numbers, sent or not, so those of its packets stay small and fit in four bytes.
pub fn numbers_are_small()
    ensures few { HoldsOfRuns NumbersAreFew }
    ensures small { HoldsOfRuns NumbersAreSmall }
{}
