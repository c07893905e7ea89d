//! A turn: a ticket lock that keeps one value.
ghost use Rattle.std.specs.Prelude.{◌≡◌, ◌⊎◌, bit_or, bit_xor, [], List, IfOk};
ghost use Rattle.lapi_turn.specs.Entries.{Entry, HasRight, HasRights, list_after};
ghost use Rattle.lapi_turn.specs.TurnRule.{all_rights};

use crate::kept::{Asked, Kept};
use crate::rule::{OneTurn, View};
use crate::seat::Seat;
use crate::steps::{end_turn, join_places, split_place, take_turn};
use atomic_table::Table;
use lapi_base::Memory;
use std::alloc::Global;
use std::marker::Brand;
use std::snapshot::Snapshot;
use std::sync::Wait;

/// A value that threads ask in turn, through a `&`.
///
/// What is not claimed: that a turn ever comes, that turns are shared out fairly, or how long one
/// takes.
#[derive(Drop)]
pub struct Turn<V: Kept> {
    table: Table<Option<V>, View<V::Fixed>, Snapshot<V>, OneTurn, Global>,
    ghost sized: { (table.shared.table_id.words ≡ 3) × (table.shared.table_id.slots ≡ 1) },
}

impl<V: Kept> Turn<V> {
    ghost use Rattle.lapi_turn.specs.Seats.{fixed_of, seen_of, rights_of, IsSeatOf, FollowsSeat};

    /// A turn and its first seat, which has all 16 rights. The value is dropped where there is no
    /// memory.
    pub fn new(alloc: Global, value: V) -> Result<(Turn<V>, Seat<V>), Memory>
        requires empty { V.list value ≡ [] }
        ensures seat { IfOk result (λ t. IsSeatOf V.fixed t.0 t.1) }
        ensures fixed { IfOk result (λ t. fixed_of V.fixed t.0 ≡ V.fixed value) }
        ensures seen { IfOk result (λ t. seen_of t.1 ≡ []) }
        ensures rights { IfOk result (λ t. rights_of t.1 ≡ all_rights) }
    {
        let about = Snapshot::of(&value);
        let mut slots = Vec::new(alloc);
        slots.push(Some(value))?;
        match Table::new(alloc, &[0, 0, 0], slots, &about) {
            Ok((table, place)) => Ok((Turn { table }, Seat { place })),
            Err(_) => Err(Memory),
        }
    }

    /// Waits for its turn, and asks the value.
    pub fn with<R: Wait, Q>(
        &self,
        rt: &R,
        alloc: Global,
        seat: &mut Seat<V>,
        ask: Q,
    ) -> <V as Asked<Q>>::Answer
    where
        V: Asked<Q>,
        requires seat { IsSeatOf V.fixed self.now seat.old }
        requires right { HasRight (rights_of seat.old) (V.entry (fixed_of V.fixed self.now) ask).1 }
        requires lawful { (l : List Entry) → FollowsSeat seat.old l → V.lawful (fixed_of V.fixed self.now) l ask }
        ensures seat { IsSeatOf V.fixed self.now seat.new }
        ensures rights { rights_of seat.new ≡ rights_of seat.old }

        // The value had a list that follows the seat, which has now seen what became of that list.
        ensures answer { (l : List Entry) × FollowsSeat seat.old l
            × V.may (fixed_of V.fixed self.now) l ask result
            × (seen_of seat.new ≡ list_after (V.appended result) l (V.entry (fixed_of V.fixed self.now) ask)) }
    {
        let shared = &self.table.shared;
        let mut value = take_turn(rt, shared, &mut seat.place);
        let (answer, grew) = value.act(alloc, ask);
        end_turn(shared, &mut seat.place, value, grew);
        answer
    }

    /// A new seat that has these rights of the old one: bit i hands over right i.
    pub fn split(&self, seat: &mut Seat<V>, rights: u32) -> Seat<V>
        requires seat { IsSeatOf V.fixed self.now seat.old }
        requires rights { HasRights (rights_of seat.old) rights }
        ensures seats { IsSeatOf V.fixed self.now seat.new × IsSeatOf V.fixed self.now result }
        ensures seen { (seen_of seat.new ≡ seen_of seat.old) × (seen_of result ≡ seen_of seat.old) }
        ensures given { rights_of result ≡ rights }
        ensures left { rights_of seat.new ≡ bit_xor (rights_of seat.old) rights }
    {
        let place = split_place::<V, Brand>(&self.table.shared, &mut seat.place, rights);
        Seat { place }
    }

    /// One seat with the rights of both, which has seen the longer of both lists. The shorter list
    /// is the longer's beginning.
    pub fn join(&self, seat: Seat<V>, other: Seat<V>) -> Seat<V>
        requires seat { IsSeatOf V.fixed self.now seat }
        requires other { IsSeatOf V.fixed self.now other }
        ensures seat { IsSeatOf V.fixed self.now result }
        ensures rights { rights_of result ≡ bit_or (rights_of seat) (rights_of other) }
        ensures seen { (seen_of result ≡ seen_of seat) ⊎ (seen_of result ≡ seen_of other) }
        ensures follows { FollowsSeat seat (seen_of result) × FollowsSeat other (seen_of result) }
    {
        let Seat { mut place } = seat;
        let Seat { place: other } = other;
        join_places(&self.table.shared, &mut place, other);
        Seat { place }
    }

    /// The value, for the seat that has all 16 rights.
    pub fn close(self, seat: Seat<V>) -> V
        requires seat { IsSeatOf V.fixed self seat }
        requires rights { rights_of seat ≡ all_rights }
        ensures list { V.list result ≡ seen_of seat }
        ensures fixed { V.fixed result ≡ fixed_of V.fixed self }
    {
        let Turn { table } = self;
        let Seat { place } = seat;
        let mut closed = table.close_with(place);
        let value = closed.take(0);
        closed.free();
        value.unwrap()
    }
}
