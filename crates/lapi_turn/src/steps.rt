//! The steps of a turn.
ghost use Rattle.std.specs.Prelude.{◌≡◌, ◌⊎◌, bit_or, [], ◌∷◌, List, ℕ, Bool, false, None, Some};
ghost use Rattle.lapi_turn.specs.Entries.{Entry, Follows, Grows, HasRight, HasRights};
ghost use Rattle.lapi_turn.specs.Places.{seen_at, rights_at, RestsAt, IsPlaceOf, StaysAt};
ghost use Rattle.lapi_turn.specs.Steps.{at_stage, having_seen, kept_part, given_part};
ghost use Rattle.lapi_turn.specs.declared.rule.Stage.TheVariants.{Rests, HasTurn};

use crate::kept::Kept;
use crate::plays::{Check, Count, Draw, HandOver, Look, Mask, Merge, Serve};
use crate::rule::{OneTurn, Place, View};
use atomic_table::Shared;
use std::snapshot::Snapshot;
use std::sync::Wait;
use std::thread::yield_now;

/// The words and the slot of a turn.
pub(crate) type Shelf<V> = Shared<Option<V>, View<<V as Kept>::Fixed>, Snapshot<V>, OneTurn>;

const TICKET: usize = 0;

const SERVING: usize = 1;

const COUNT: usize = 2;

const HOME: usize = 0;

// Draws a ticket, waits until it is served, and takes the value out of the slot.
pub(crate) fn take_turn<V: Kept, R: Wait>(rt: &R, shared: &Shelf<V>, place: &mut Place<V>) -> V
    requires table { IsPlaceOf shared.now.table_id place.old }
    requires rests { RestsAt place.old }
    requires right { (r : ℕ) × HasRight (rights_at place.old) r }
    ensures place { StaysAt place.old place.new }
    ensures turn { (k : ℕ) × (place.new.me ≡ (at_stage place.old.me.0 (HasTurn k (V.list result) false), (0, None) ∷ [])) }
    ensures list { Follows (seen_at place.old) (rights_at place.old) (V.list result) }
    ensures fixed { place.old.me.0.fixed ≡ Some (V.fixed result) }
{
    let ticket = shared.fetch_add::<Draw>(place, TICKET, 1);
    for _ in rt.forever() {
        let serving = shared.load::<Look>(place, SERVING);
        if serving == ticket {
            return shared.exchange(place, HOME, None).unwrap();
        }
        yield_now();
    }
    unreachable!()
}

// Puts the value back, counts its entry where it has one more, and lets the next seat have its turn.
pub(crate) fn end_turn<V: Kept>(shared: &Shelf<V>, place: &mut Place<V>, value: V, grew: bool)
    requires table { IsPlaceOf shared.now.table_id place.old }
    requires right { (r : ℕ) × HasRight (rights_at place.old) r }
    requires turn { (k : ℕ) × (base : List Entry) × (place.old.me.0.stage ≡ HasTurn k base false) × (place.old.me.1 ≡ (0, None) ∷ [])
        × Grows grew (rights_at place.old) base (V.list value) }
    requires fixed { V.fixed value ≡ V.fixed shared.now.key.value }
    ensures place { StaysAt place.old place.new }
    ensures rests { place.new.me ≡ (having_seen place.old.me.0 (V.list value) Rests, []) }
{
    shared.exchange(place, HOME, Some(value));
    if grew {
        shared.fetch_add::<Count>(place, COUNT, 1);
    }
    shared.fetch_add::<Serve>(place, SERVING, 1);
}

// Hands over the rights of the mask to a new place.
pub(crate) fn split_place<V: Kept, K: Mask>(
    shared: &Shelf<V>,
    place: &mut Place<V>,
    mask: u32,
) -> Place<V>
    requires table { IsPlaceOf shared.now.table_id place.old }
    requires rests { RestsAt place.old }
    requires known { place.old.me.0.fixed ≡ Some (V.fixed shared.now.key.value) }
    requires mask { mask ≡ K.mask }
    requires part { HasRights (rights_at place.old) mask }
    ensures place { StaysAt place.old place.new }
    ensures kept { place.new.me ≡ (kept_part mask place.old.me.0, []) }
    ensures given { (result.table_id ≡ place.old.table_id) × (result.me ≡ (given_part mask place.old.me.0, [])) }
{
    let _ = mask;
    shared.split_seat::<HandOver<K>>(place)
}

// Takes in what the other place knows, and its rights.
pub(crate) fn join_places<V: Kept>(shared: &Shelf<V>, place: &mut Place<V>, other: Place<V>)
    requires table { IsPlaceOf shared.now.table_id place.old × IsPlaceOf shared.now.table_id other }
    requires rests { RestsAt place.old × RestsAt other }
    requires known { place.old.me.0.fixed ≡ Some (V.fixed shared.now.key.value) }
    ensures place { (place.new.table_id ≡ place.old.table_id) × RestsAt place.new × (place.new.me.0.fixed ≡ place.old.me.0.fixed) }
    ensures rights { rights_at place.new ≡ bit_or (rights_at place.old) (rights_at other) }
    ensures longer { (seen_at place.new ≡ seen_at place.old) ⊎ (seen_at place.new ≡ seen_at other) }
    ensures follows { Follows (seen_at place.old) (rights_at place.old) (seen_at place.new) × Follows (seen_at other) (rights_at other) (seen_at place.new) }
{
    shared.join_seat::<Merge>(place, other);
    shared.load::<Check>(place, TICKET);
}
