//! The head of Putv with Go.
//!
//! ```text
//! size  field   rule                                        reason
//! 1     tgt     below 64, or ff for none                    Field
//! 1     cmpl    below 64, or ff for none                    Field
//! 1     count   1 to 16                                     Field
//! 8     pieces  each at most what is left of length,        Field
//!               and the last all of it
//! ```

ghost use Rattle.std.specs.Prelude.{◌≡◌, ◌≤◌, ◌+◌, ◌++◌, length};
ghost use Rattle.lapi_base.specs.Packet.Heads.{putv_form};
ghost use Rattle.lapi_packet.specs.Reader.{Reads};
ghost use Rattle.lapi_base.specs.Packet.PacketBytes as written;

use crate::fault::Fault;
use crate::number::write_one;
use crate::{counter, spans};
use lapi_base::{FRAME_ROOM, Frame, Head, Spans};

#[tactic(auto, using(lapi_base::proofs::FormLaws::read_bind), unfolding(lapi_base::specs::Packet::Heads::putv_form))]
pub(crate) fn read(length: u32, bytes: &[u8]) -> Result<(Head, &[u8]), Fault>
    ensures { Reads (putv_form length) bytes.now result }
{
    let (tgt, rest) = counter::read(bytes)?;
    let (cmpl, rest) = counter::read(rest)?;
    let (count, rest) = spans::read_count(rest)?;
    let (pieces, rest) = spans::read_covering(length, count, rest)?;
    Ok((Head::Putv { tgt, cmpl, pieces }, rest))
}

pub(crate) fn write(tgt: Option<u32>, cmpl: Option<u32>, pieces: &Spans, out: &mut Frame)
    requires { length out.old + 131 ≤ FRAME_ROOM }
    ensures bytes { out.new ≡ out.old ++ written.head (Head.Putv tgt cmpl pieces.now) }
    ensures room { length out.new ≤ length out.old + 131 }
{
    counter::write(tgt, out);
    counter::write(cmpl, out);
    let pieces = pieces.as_slice();
    write_one(pieces.len() as u32, out);
    spans::write(pieces, out);
}
