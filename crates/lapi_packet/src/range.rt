ghost use Rattle.std.specs.Prelude.{◌≡◌};
ghost use Rattle.lapi_base.specs.Packet.Fields.{fits, range_form, word_form};
ghost use Rattle.lapi_packet.specs.Reader.{Reads};

use crate::fault::{Fault, refused};
use crate::number::read_four;
use lapi_base::Reason;

/// The bytes of the largest memory.
pub(crate) const MEMORY: u32 = 65_536;

const LAST_WORD: u32 = 65_532;

/// Whether `count` bytes from `at` on lie in the largest memory.
pub(crate) fn fits(at: u32, count: u32) -> bool
    ensures { result ≡ fits at count }
{
    at <= MEMORY && count <= MEMORY - at
}

/// The address of a word.
///
/// ```text
/// size  field    rule                                reason
/// 4     address  a multiple of 4, at most 65,532     Field
/// ```
#[tactic(auto, unfolding(lapi_base::specs::Packet::Fields::word_form))]
pub(crate) fn read_word(bytes: &[u8]) -> Result<(u32, &[u8]), Fault>
    ensures { Reads word_form bytes.now result }
{
    let (at, rest) = read_four(bytes)?;
    if at % 4 != 0 || at > LAST_WORD {
        return Err(refused(bytes, Reason::Field));
    }
    Ok((at, rest))
}

/// The address of `count` bytes.
///
/// ```text
/// size  field    rule                              reason
/// 4     address  address + count at most 65,536    Field
/// ```
#[tactic(auto, unfolding(lapi_base::specs::Packet::Fields::range_form))]
pub(crate) fn read_range(count: u32, bytes: &[u8]) -> Result<(u32, &[u8]), Fault>
    ensures { Reads (range_form count) bytes.now result }
{
    let (at, rest) = read_four(bytes)?;
    if !fits(at, count) {
        return Err(refused(bytes, Reason::Field));
    }
    Ok((at, rest))
}
