//! What a record lists as handed over.
ghost use Rattle.lapi_base.specs.Laws.Headline.{HandedAreDeliveries, OwedByDeliveries};

/// It is the entries of the lines that delivered one, in order.
pub fn handed_are_deliveries()
    ensures { HandedAreDeliveries }
{}

/// What it tells to be owed is owed from the delivery of a data packet to the receiver's next poll, and in no layout but
/// those that hold acknowledgements back.
pub fn owed_by_deliveries()
    ensures { OwedByDeliveries }
{}
