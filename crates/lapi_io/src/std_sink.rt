ghost use Rattle.std.specs.Prelude.{◌≡◌, ◌<◌, None, IfOk, length};
ghost use Rattle.std.specs.Io.{WritesAtMost};
ghost use Rattle.std.specs.Io.KnownBytes.{WriteAppends};
ghost use Rattle.lapi_io.specs.Causes.{CountsFault, HasCause};
ghost use Rattle.lapi_io.specs.StdSink.{writer_of, faults_of};
ghost use Rattle.lapi_io.specs.SureRoom.{no_room};

use crate::sink::Sink;
use crate::source::Failed;
use std::io::Write;

/// A writer of std. It tells what the writer tells, and counts as a fault each error, and each write that takes nothing of
/// a piece that isn't empty. It never flushes.
#[derive(Debug, Drop)]
pub struct StdSink<W> {
    writer: W,
    faults: u64,
}

impl<W: Write> StdSink<W> {
    pub fn new(writer: W) -> StdSink<W>
        ensures writer { writer_of result ≡ writer }
        ensures faults { faults_of result ≡ 0 }
    {
        StdSink { writer, faults: 0 }
    }
}

impl<W: Write> Sink for StdSink<W> {
    ghost held = { λ sink. W.contents (writer_of sink) };

    ghost faults = { λ sink. faults_of sink };

    ghost room = { λ _. None };

    ghost sure = { λ _ n e. no_room n e };

    fn write(&mut self, piece: &[u8]) -> Result<usize, Failed>
        ensures bound { WritesAtMost result piece.now }
        ensures some { IfOk result (λ n. 0 < length piece.now → 0 < n) }
        ensures bytes { WriteAppends (W.contents (writer_of self.old)) (W.contents (writer_of self.new)) result piece.now }
        ensures cause { HasCause (faults_of self.old) (faults_of self.new) result }
        ensures faults { CountsFault (faults_of self.old) (faults_of self.new) result }
    {
        match self.writer.write(piece) {
            Ok(n) if n > 0 || piece.is_empty() => Ok(n),
            _ => {
                self.faults = self.faults.saturating_add(1);
                Err(Failed)
            }
        }
    }
}
