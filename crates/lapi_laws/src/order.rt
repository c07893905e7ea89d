//! What holds of the messages and the handlers of an atomic journal, and so of every run's.
ghost use Rattle.lapi_base.specs.Laws.Headline.{LandsOnce, HandlersOnce, HandlersInOrder, HoldsOfAtomic, HoldsOfJournals};

/// A message lands at most once.
pub fn messages_land_once()
    ensures atomic { HoldsOfAtomic LandsOnce }
    ensures runs { HoldsOfJournals LandsOnce }
{}

/// A handler is called at most once for a message, and only after what comes before it.
pub fn handlers_run_in_order()
    ensures once { HoldsOfAtomic HandlersOnce }
    ensures in_order { HoldsOfAtomic HandlersInOrder }
    ensures runs_once { HoldsOfJournals HandlersOnce }
    ensures runs_in_order { HoldsOfJournals HandlersInOrder }
{}
