//! The rounds of collective calls.
ghost use Rattle.lapi_base.specs.Laws.Headline.{HoldsOfAtomic};
ghost use Rattle.lapi_base.specs.Laws.Rounds.{RoundsAreInOrder, FencesAreJoined, TablesAreJoined, JoinsOnce, JoinsItsRound, JoinsNoOther, PassedAreJoined, KnownArePassed};
ghost use Rattle.lapi_base.specs.Record.WorldView.{HoldsOfRecords};

/// A statement's round is its place among the rounds of its task, so a join that comes is that of the statement with the
/// round of its head, and an address that it brings is the entry of its origin.
pub fn rounds_are_in_order()
    ensures order { RoundsAreInOrder }
    ensures fences { HoldsOfRecords FencesAreJoined }
    ensures tables { HoldsOfRecords TablesAreJoined }
{}

/// The landing of a join joins its origin to the round of its statement, once, and nobody to any other round.
pub fn joins_join_once()
    ensures once { HoldsOfAtomic JoinsOnce }
    ensures own { HoldsOfAtomic JoinsItsRound }
    ensures others { HoldsOfAtomic JoinsNoOther }
{}

/// A round of addresses that a task has passed was joined by all others, and a task knows the entries of exactly the rounds
/// that it has passed.
pub fn known_rounds_are_passed()
    ensures joined { HoldsOfAtomic PassedAreJoined }
    ensures known { HoldsOfAtomic KnownArePassed }
{}
