//! The end of a record.
ghost use Rattle.lapi_base.specs.Record.Final.{DeliveredIsQuiet, QuietIsFinal, QuietStays, QuietIsTested};
ghost use Rattle.lapi_base.specs.Laws.Headline.{HoldsOfRuns};

/// Once everything is delivered the record is quiet, a quiet record's journal is final, and it stays as it is.
pub fn delivered_is_final()
    ensures quiet { HoldsOfRuns DeliveredIsQuiet }
    ensures complete { HoldsOfRuns QuietIsFinal }
    ensures still { HoldsOfRuns QuietStays }
{}

/// The test for quiet says what quiet means.
pub fn quiet_is_tested()
    ensures { HoldsOfRuns QuietIsTested }
{}
