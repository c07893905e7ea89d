ghost use Rattle.std.specs.Prelude.{◌≡◌, ◌+◌, ◌-◌, ◌^◌, Ok, None, length, min};
ghost use Rattle.lapi_io.specs.SureRoom.{no_room};

use crate::sink::Sink;
use crate::source::Failed;
use std::marker::Model;

/// Takes all bytes, and keeps only their number.
#[derive(Debug, Default, Drop)]
pub struct CountSink {
    taken: u64,
}

impl Model for CountSink {
    ghost use Rattle.std.specs.Prelude.{ℕ};

    ghost Value = { ℕ };

    ghost view = { λ sink. sink.taken };
}

impl CountSink {
    pub fn new() -> CountSink
        ensures { result ≡ 0 }
    {
        CountSink { taken: 0 }
    }

    /// How many bytes it took, up to 2^64 - 1.
    pub fn taken(&self) -> u64
        ensures { result ≡ self.now }
    {
        self.taken
    }
}

impl Sink for CountSink {
    ghost held = { λ _. None };

    ghost faults = { λ _. 0 };

    ghost room = { λ _. None };

    ghost sure = { λ _ n e. no_room n e };

    fn write(&mut self, piece: &[u8]) -> Result<usize, Failed>
        ensures all { result ≡ Ok (length piece.now) }
        ensures taken { self.new ≡ min (self.old + length piece.now) (2 ^ 64 - 1) }
    {
        self.taken = self.taken.saturating_add(piece.len() as u64);
        Ok(piece.len())
    }
}
