//! What holds of the counters of an atomic journal, and so of every run's.
ghost use Rattle.std.specs.Prelude.{List};
ghost use Rattle.lapi_base.specs.declared.script.Script.{Script};
ghost use Rattle.lapi_base.specs.declared.rule.Rules.{Rules};
ghost use Rattle.lapi_base.specs.declared.event.Event.{Event};
ghost use Rattle.lapi_base.specs.Laws.Headline.{CountersAddUp, CountersStart, HoldsOfAtomic, HoldsOfJournals};

/// A counter is the last value that was set, and the announcements after that, less what waits took after it.
pub fn counters_add_up()
    ensures atomic { HoldsOfAtomic CountersAddUp }
    ensures starts { (script : Script) (rules : Rules) (J : List Event) → CountersStart script rules J }
    ensures runs { HoldsOfJournals CountersAddUp }
{}
