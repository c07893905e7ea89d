ghost use Rattle.std.specs.Prelude.{◌≡◌, ◌<◌, ℕ, List, Option, Some, IfOk, length};
ghost use Rattle.std.specs.Io.{WritesAtMost};
ghost use Rattle.std.specs.Io.KnownBytes.{WriteAppends};
ghost use Rattle.lapi_io.specs.Causes.{HasCause};
ghost use Rattle.lapi_io.specs.Writes.{Writes};

use crate::source::Failed;

/// What bytes are written to.
pub trait Sink {
    /// The bytes that it holds, where it tells them.
    ghost held: { Self → Option (List ℕ) };

    /// How many faults it had. It stands still at 2^64 - 1.
    ghost faults: { Self → ℕ };

    /// How many bytes it surely takes, where it has such a room.
    ghost room: { Self → Option ℕ };

    /// Appends a front of the piece, and answers its length. For a piece that isn't empty, this is at least 1.
    fn write(&mut self, piece: &[u8]) -> Result<usize, Failed>
        ensures bound { WritesAtMost result piece.now }
        ensures some { IfOk result (λ n. 0 < length piece.now → 0 < n) }
        ensures bytes { WriteAppends (held self.old) (held self.new) result piece.now }
        ensures cause { HasCause (faults self.old) (faults self.new) result }
        ensures room { room self.new ≡ room self.old };

    /// With a sure room the bytes are told, and there was no fault while fewer are held.
    ghost sure: { (sink : Self) (n : ℕ) → room sink ≡ Some n → (bs : List ℕ) × (held sink ≡ Some bs) × (length bs < n → faults sink ≡ 0) };
}

/// Appends the whole piece, or a front of it where a write failed.
pub fn write_all<K: Sink>(sink: &mut K, piece: &[u8]) -> Result<(), Failed>
    ensures { Writes K.held K.faults K.room sink.old sink.new piece.now result }
{
    let mut rest = piece;
    while !rest.is_empty() {
        let n = sink.write(rest)?;
        let (_, after) = rest.split_at(n);
        rest = after;
    }
    Ok(())
}
