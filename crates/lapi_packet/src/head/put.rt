//! The head of Put with Go.
//!
//! ```text
//! size  field   rule                                        reason
//! 4     at      at + length at most 65,536                  Field
//! 1     tgt     below 64, or ff for none                    Field
//! 1     cmpl    below 64, or ff for none                    Field
//! ```

ghost use Rattle.std.specs.Prelude.{◌≡◌, ◌≤◌, ◌+◌, ◌++◌, length};
ghost use Rattle.lapi_base.specs.Packet.Heads.{put_form};
ghost use Rattle.lapi_packet.specs.Reader.{Reads};
ghost use Rattle.lapi_base.specs.Packet.PacketBytes as written;

use crate::counter;
use crate::fault::Fault;
use crate::number::write_four;
use crate::range::read_range;
use lapi_base::{FRAME_ROOM, Frame, Head};

#[tactic(auto, using(lapi_base::proofs::FormLaws::read_bind), unfolding(lapi_base::specs::Packet::Heads::put_form))]
pub(crate) fn read(length: u32, bytes: &[u8]) -> Result<(Head, &[u8]), Fault>
    ensures { Reads (put_form length) bytes.now result }
{
    let (at, rest) = read_range(length, bytes)?;
    let (tgt, rest) = counter::read(rest)?;
    let (cmpl, rest) = counter::read(rest)?;
    Ok((Head::Put { at, tgt, cmpl }, rest))
}

pub(crate) fn write(at: u32, tgt: Option<u32>, cmpl: Option<u32>, out: &mut Frame)
    requires { length out.old + 6 ≤ FRAME_ROOM }
    ensures bytes { out.new ≡ out.old ++ written.head (Head.Put at tgt cmpl) }
    ensures room { length out.new ≤ length out.old + 6 }
{
    write_four(at, out);
    counter::write(tgt, out);
    counter::write(cmpl, out);
}
