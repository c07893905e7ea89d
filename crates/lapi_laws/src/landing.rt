//! What the numbers that were delivered and acknowledged say of the messages of a record.
ghost use Rattle.lapi_base.specs.Laws.Headline.{HoldsOfRuns};
ghost use Rattle.lapi_base.specs.Laws.Links.{LandsWhenAllCame, HeadsWhenOneCame, DoneHaveLanded, ClearHaveLanded};

/// A message lands with the delivery of the last of its numbers, and its header handler is called with that of the
/// first: each exactly there.
pub fn landed_are_delivered()
    ensures landed { HoldsOfRuns LandsWhenAllCame }
    ensures headed { HoldsOfRuns HeadsWhenOneCame }
{}

/// The data of an operation that is data-done have landed, and so have all earlier data where a fence finds them clear.
pub fn done_have_landed()
    ensures done { HoldsOfRuns DoneHaveLanded }
    ensures clear { HoldsOfRuns ClearHaveLanded }
{}
