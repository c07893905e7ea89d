ghost use Rattle.std.specs.Prelude.{◌≡◌, ◌++◌};
ghost use Rattle.std.specs.Hash as fed;
ghost use Rattle.lapi_capture.specs.Parts.{is_same};
ghost use Rattle.lapi_capture.specs.SameMessages.{same_laws, hashed_alike};
ghost use Rattle.std.specs.Cmp.{partial_equiv_from_equiv};

use lapi_base::MsgName;
use std::hash::{Hash, Hasher};

/// A message at the task that it comes to.
#[derive(Clone, Copy, Debug)]
pub(crate) struct Incoming {
    pub(crate) name: MsgName,
    pub(crate) to: u32,
}

impl PartialEq for Incoming {
    ghost eq = { is_same };

    ghost laws = { partial_equiv_from_equiv same_laws };

    fn eq(&self, other: &Incoming) -> bool {
        self.name.is_same(other.name) && self.to == other.to
    }
}

impl Eq for Incoming {
    ghost laws = { same_laws };
}

// The messages of one statement to one task share a hash.
impl Hash for Incoming {
    ghost hash_input = { λ m. fed.u32 m.name.origin ++ fed.u32 m.name.statement ++ fed.u32 m.to };

    ghost respects_eq = { hashed_alike };

    fn hash<H: Hasher>(&self, state: &mut H) {
        state.write_u32(self.name.origin);
        state.write_u32(self.name.statement);
        state.write_u32(self.to);
    }
}
