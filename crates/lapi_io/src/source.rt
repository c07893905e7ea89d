ghost use Rattle.std.specs.Prelude.{◌≡◌, ◌≤◌, ◌+◌, ℕ, List, Option, IfOk, OnErr, IsErrOf, length, vec_len};
ghost use Rattle.std.specs.Io.{ReadsAtMost};
ghost use Rattle.std.specs.Io.KnownBytes.{ReadConsumes, Consumes, IsAtEnd};
ghost use Rattle.lapi_io.specs.Causes.{HasCause, Rose};
ghost use Rattle.lapi_io.specs.declared.source.ReadAll.TheVariants.{Memory};

use lapi_base::{LONGEST_INPUT, WriteFault};
use std::alloc::{AllocError, Global};
use std::cmp;

/// The answer to a read or a write that failed.
#[derive(Clone, Copy, Debug, Eq, PartialEq)]
pub struct Failed;

impl From<Failed> for WriteFault {
    ghost use Rattle.lapi_base.specs.declared.status.WriteFault.TheVariants as faults;

    ghost from_gives = { λ _ fault. fault ≡ faults.Failed };

    fn from(_error: Failed) -> WriteFault {
        WriteFault::Failed
    }
}

/// What bytes are read from.
pub trait Source {
    /// The bytes that are left, where it tells them.
    ghost left: { Self → Option (List ℕ) };

    /// How many faults it had. It stands still at 2^64 - 1.
    ghost faults: { Self → ℕ };

    /// Reads bytes to the front of `buf`, and answers how many. For a buffer that isn't empty, 0 is the end of input.
    fn read(&mut self, buf: &mut [u8]) -> Result<usize, Failed>
        ensures bound { ReadsAtMost result buf.new }
        ensures bytes { ReadConsumes (left self.old) (left self.new) result buf.new }
        ensures cause { HasCause (faults self.old) (faults self.new) result };
}

/// Why [`read_all`] gave no bytes.
#[derive(Clone, Copy, Debug, Eq, PartialEq)]
pub enum ReadAll {
    /// A read failed.
    Failed,
    /// There are more bytes than are allowed.
    Long,
    Memory,
}

impl From<AllocError> for ReadAll {
    ghost from_gives = { λ _ e. e ≡ Memory };

    fn from(_error: AllocError) -> ReadAll {
        ReadAll::Memory
    }
}

/// Reads to the end of input, or until it has one byte more than `most`.
pub fn read_all<S: Source>(alloc: Global, source: &mut S, most: usize) -> Result<Vec<u8>, ReadAll>
    requires { most ≤ LONGEST_INPUT }
    ensures all { IfOk result (λ v. Consumes (S.left source.old) (S.left source.new) v.items × IsAtEnd (S.left source.new)) }
    ensures short { IfOk result (λ v. vec_len v ≤ most) }
    ensures long { IsErrOf result ReadAll.Long → (bs : List ℕ) × (length bs ≡ most + 1) × Consumes (S.left source.old) (S.left source.new) bs }
    ensures err { OnErr result ((bs : List ℕ) × (length bs ≤ most + 1) × Consumes (S.left source.old) (S.left source.new) bs) }
    ensures later { S.faults source.old ≤ S.faults source.new }
    ensures failed { IsErrOf result ReadAll.Failed → Rose (S.faults source.old) (S.faults source.new) }
    ensures early { IsErrOf result ReadAll.Failed → (bs : List ℕ) × (length bs ≤ most) × Consumes (S.left source.old) (S.left source.new) bs }
{
    let mut all = Vec::new(alloc);
    let mut buf = [0u8; 8192];
    while all.len() <= most {
        let room = cmp::min(buf.len(), most + 1 - all.len());
        match source.read(&mut buf[..room]) {
            Ok(0) => return Ok(all),
            Ok(n) => all.extend_from_slice(&buf[..n])?,
            Err(Failed) => return Err(ReadAll::Failed),
        }
    }
    Err(ReadAll::Long)
}
