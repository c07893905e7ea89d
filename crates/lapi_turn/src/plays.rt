//! What each step on the table tells.
ghost use Rattle.std.specs.Prelude.{ℕ};
ghost use Rattle.lapi_turn.specs.Steps.{DrawTells, LookTells, CountTells, ServeTells, CheckTells, kept_part, given_part, joined_view};
ghost use Rattle.lapi_turn.specs.TurnRule.{spent_view};

use crate::kept::Kept;
use crate::rule::View;
use atomic_table::{Join, Play, Split};
use std::marker::{Brand, PhantomData};

pub(crate) struct Draw;

impl<V: Kept> Play<Option<V>, View<V::Fixed>> for Draw {
    ghost then = { DrawTells };
}

pub(crate) struct Look;

impl<V: Kept> Play<Option<V>, View<V::Fixed>> for Look {
    ghost then = { LookTells V.list V.fixed };
}

pub(crate) struct Count;

impl<V: Kept> Play<Option<V>, View<V::Fixed>> for Count {
    ghost then = { CountTells V.list };
}

pub(crate) struct Serve;

impl<V: Kept> Play<Option<V>, View<V::Fixed>> for Serve {
    ghost then = { ServeTells };
}

pub(crate) struct Check;

impl<V: Kept> Play<Option<V>, View<V::Fixed>> for Check {
    ghost then = { CheckTells };
}

/// The rights that a split hands over.
pub(crate) trait Mask {
    ghost mask: { ℕ };
}

impl Mask for Brand {
    ghost mask = { 0 };
}

pub(crate) struct HandOver<K> {
    mask: PhantomData<K>,
}

impl<F, K: Mask> Split<View<F>> for HandOver<K> {
    ghost left = { kept_part K.mask };

    ghost right = { given_part K.mask };
}

pub(crate) struct Merge;

impl<F> Join<View<F>> for Merge {
    ghost both = { joined_view };

    ghost spent = { spent_view };
}
