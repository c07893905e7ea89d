//! The head of Getv with Back.
//!
//! ```text
//! size  field   rule                                        reason
//! 1     org     below 64, or ff for none                    Field
//! 1     count   1 to 16                                     Field
//! 8     dest    each at most what is left of length,        Field
//!               and the last all of it
//! ```

ghost use Rattle.std.specs.Prelude.{◌≡◌, ◌≤◌, ◌+◌, ◌++◌, length};
ghost use Rattle.lapi_base.specs.Packet.Heads.{getv_back_form};
ghost use Rattle.lapi_packet.specs.Reader.{Reads};
ghost use Rattle.lapi_base.specs.Packet.PacketBytes as written;

use crate::fault::Fault;
use crate::number::write_one;
use crate::{counter, spans};
use lapi_base::{FRAME_ROOM, Frame, Head, Spans};

#[tactic(auto, using(lapi_base::proofs::FormLaws::read_bind), unfolding(lapi_base::specs::Packet::Heads::getv_back_form))]
pub(crate) fn read(length: u32, bytes: &[u8]) -> Result<(Head, &[u8]), Fault>
    ensures { Reads (getv_back_form length) bytes.now result }
{
    let (org, rest) = counter::read(bytes)?;
    let (count, rest) = spans::read_count(rest)?;
    let (dest, rest) = spans::read_covering(length, count, rest)?;
    Ok((Head::GetvBack { org, dest }, rest))
}

pub(crate) fn write(org: Option<u32>, dest: &Spans, out: &mut Frame)
    requires { length out.old + 130 ≤ FRAME_ROOM }
    ensures bytes { out.new ≡ out.old ++ written.head (Head.GetvBack org dest.now) }
    ensures room { length out.new ≤ length out.old + 130 }
{
    counter::write(org, out);
    let dest = dest.as_slice();
    write_one(dest.len() as u32, out);
    spans::write(dest, out);
}
