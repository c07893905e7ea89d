ghost use Rattle.std.specs.Prelude.{◌≡◌};
ghost use Rattle.std.specs.Io.{ReadsAtMost};
ghost use Rattle.std.specs.Io.KnownBytes.{ReadConsumes};
ghost use Rattle.lapi_io.specs.Causes.{CountsFault, HasCause};
ghost use Rattle.lapi_io.specs.StdSource.{reader_of, faults_of};

use crate::source::{Failed, Source};
use std::io::Read;

/// A reader of std. It tells what the reader tells, and counts each error as a fault.
#[derive(Debug, Drop)]
pub struct StdSource<R> {
    reader: R,
    faults: u64,
}

impl<R: Read> StdSource<R> {
    pub fn new(reader: R) -> StdSource<R>
        ensures reader { reader_of result ≡ reader }
        ensures faults { faults_of result ≡ 0 }
    {
        StdSource { reader, faults: 0 }
    }
}

impl<R: Read> Source for StdSource<R> {
    ghost left = { λ source. R.remaining (reader_of source) };

    ghost faults = { λ source. faults_of source };

    fn read(&mut self, buf: &mut [u8]) -> Result<usize, Failed>
        ensures bound { ReadsAtMost result buf.new }
        ensures bytes { ReadConsumes (R.remaining (reader_of self.old)) (R.remaining (reader_of self.new)) result buf.new }
        ensures cause { HasCause (faults_of self.old) (faults_of self.new) result }
        ensures faults { CountsFault (faults_of self.old) (faults_of self.new) result }
    {
        match self.reader.read(buf) {
            Ok(n) => Ok(n),
            Err(_) => {
                self.faults = self.faults.saturating_add(1);
                Err(Failed)
            }
        }
    }
}
