ghost use Rattle.std.specs.Prelude.{◌≡◌, ◌≤◌, ◌↔◌, Some, IsErr, IfOk, Contains, length, min};
ghost use Rattle.std.specs.Io.{ReadsAtMost};
ghost use Rattle.std.specs.Io.KnownBytes.{ReadConsumes};
ghost use Rattle.lapi_io.specs.Causes.{CountsFault, HasCause};

use crate::source::{Failed, Source};
use crate::sure_source::SureSource;
use std::cmp;

/// Bytes in memory that come in steps, with reads that fail by their number.
#[derive(Debug, Drop)]
pub struct MemSource {
    bytes: SureSource,
    step: usize,
    fails: Vec<u64>,
    calls: u64,
    faults: u64,
    ghost moves: { 1 ≤ step },
}

impl MemSource {
    ghost use Rattle.lapi_io.specs.MemSource.{left_of, step_of, fails_of, calls_of, faults_of};

    /// A read gives at most `step` bytes, and fails where its number is in `fails`. The first has number 0, and the
    /// numbers stand still at 2^64 - 1.
    pub fn new(bytes: Vec<u8>, step: usize, fails: Vec<u64>) -> MemSource
        requires { 1 ≤ step }
        ensures left { left_of result ≡ bytes.items }
        ensures step { step_of result ≡ step }
        ensures fails { fails_of result ≡ fails.items }
        ensures counts { (calls_of result ≡ 0) × (faults_of result ≡ 0) }
    {
        MemSource {
            bytes: SureSource::new(bytes),
            step,
            fails,
            calls: 0,
            faults: 0,
        }
    }
}

impl Source for MemSource {
    ghost use Rattle.lapi_io.specs.MemSource.{left_of, step_of, fails_of, calls_of, faults_of, CountsCall};

    ghost left = { λ source. Some (left_of source) };

    ghost faults = { faults_of };

    fn read(&mut self, buf: &mut [u8]) -> Result<usize, Failed>
        ensures bound { ReadsAtMost result buf.new }
        ensures bytes { ReadConsumes (Some (left_of self.old)) (Some (left_of self.new)) result buf.new }
        ensures cause { HasCause (faults_of self.old) (faults_of self.new) result }

        ensures failed { IsErr result ↔ Contains (fails_of self.old) (calls_of self.old) }
        ensures count { IfOk result (λ n. n ≡ min (step_of self.old) (min (length buf.old) (length (left_of self.old)))) }

        ensures calls { CountsCall self.old self.new }
        ensures faults { CountsFault (faults_of self.old) (faults_of self.new) result }
    {
        let fails = self.fails.contains(&self.calls);
        self.calls = self.calls.saturating_add(1);
        if fails {
            self.faults = self.faults.saturating_add(1);
            return Err(Failed);
        }
        let room = cmp::min(self.step, buf.len());
        self.bytes.read(&mut buf[..room])
    }
}
