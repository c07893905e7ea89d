//! A seat of a turn.
ghost use Rattle.std.specs.Prelude.{◌≡◌, []};
ghost use Rattle.lapi_turn.specs.declared.rule.Stage.TheVariants.{Rests};

use crate::kept::Kept;
use crate::rule::Place;

/// Some of the 16 rights to a turn, and what was seen of its list. A seat has no bytes.
///
/// No two seats of a turn have a right in common, so nobody else can append an entry that needs a
/// right of this seat. The rights of a seat that is dropped are lost, and then the turn can't be
/// closed.
#[derive(Drop)]
pub struct Seat<V: Kept> {
    pub(crate) place: Place<V>,
    ghost rests: { (place.me.1 ≡ []) × (place.me.0.stage ≡ Rests) },
}
