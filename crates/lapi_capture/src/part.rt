ghost use Rattle.std.specs.Prelude.{◌≡◌};
ghost use Rattle.lapi_capture.specs.Parts.{count};

use crate::incoming::Incoming;
use lapi_base::unit_in;

/// The most fragments of a message, in each layout.
pub(crate) const MOST_FRAGMENTS: u32 = 64;

/// A fragment of a message, as a data packet tells of it.
#[derive(Clone, Copy, Debug)]
pub(crate) struct Part {
    pub(crate) message: Incoming,
    /// The packet's layout.
    pub(crate) layout: u32,
    /// The bytes of the whole message.
    pub(crate) length: u32,
    /// Its number among the fragments of the message, from 0.
    pub(crate) fragment: u32,
}

impl Part {
    /// How many fragments its message has.
    #[tactic(auto, using(crate::proofs::Counts::ceiling))]
    pub(crate) fn count(self) -> u32
        ensures { result ≡ count self }
    {
        self.length.div_ceil(unit_in(self.layout)).max(1)
    }
}
