//! The rule of the table under a turn. Its three words are the tickets drawn, the turns served and
//! the entries counted; its one slot has the value.
use crate::kept::Kept;
use atomic_table::{Seat, TableRule};
use std::snapshot::Snapshot;

/// Where a seat stands.
pub(crate) enum Stage {
    /// It has no ticket.
    Rests,
    /// It has no ticket. What a seat that was joined into it had seen, and that seat's rights.
    Joined([(u64, u64); 0], u64),
    /// The ticket that it has drawn.
    Waits(u64),
    /// The ticket, the list that the turn began with, and whether the turn's entry was counted.
    HasTurn(u64, [(u64, u64); 0], bool),
}

/// What a seat knows. No value of it is made. A clause reads its arrays as lists of any length,
/// and its numbers have no upper bound.
pub(crate) struct View<F> {
    /// The fixed part; a spent view has none.
    pub(crate) fixed: Option<F>,
    pub(crate) seen: [(u64, u64); 0],
    /// Bit i is right i.
    pub(crate) rights: u64,
    pub(crate) stage: Stage,
}

pub(crate) struct OneTurn;

impl<V: Kept> TableRule<Option<V>, View<V::Fixed>, Snapshot<V>> for OneTurn {
    ghost use Rattle.lapi_turn.specs.TurnRule.{TurnRule, first_view};

    ghost holds = { λ key. TurnRule V.list V.fixed (V.fixed key.value) };

    ghost first = { λ key. first_view (V.fixed key.value) };
}

/// A seat at the table.
pub(crate) type Place<V> = Seat<Option<V>, View<<V as Kept>::Fixed>>;
