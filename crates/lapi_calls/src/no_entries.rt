ghost use Rattle.std.specs.Prelude.{false};

use crate::entries::Entries;

/// No address is known.
pub struct NoEntries;

impl Entries for NoEntries {
    ghost valid = { λ _. Unit {0} };

    ghost is_known = { λ _ _. false };

    ghost given = { λ _ _ _. 0 };

    fn knows(&self, _round: u32) -> bool {
        false
    }

    fn entry(&self, _round: u32, _task: u32) -> u32 {
        0
    }
}
