//! The head of Get with Back.
//!
//! ```text
//! size  field   rule                                        reason
//! 4     dest    dest + length at most 65,536                Field
//! 1     org     below 64, or ff for none                    Field
//! ```

ghost use Rattle.std.specs.Prelude.{◌≡◌, ◌≤◌, ◌+◌, ◌++◌, length};
ghost use Rattle.lapi_base.specs.Packet.Heads.{get_back_form};
ghost use Rattle.lapi_packet.specs.Reader.{Reads};
ghost use Rattle.lapi_base.specs.Packet.PacketBytes as written;

use crate::counter;
use crate::fault::Fault;
use crate::number::write_four;
use crate::range::read_range;
use lapi_base::{FRAME_ROOM, Frame, Head};

#[tactic(auto, using(lapi_base::proofs::FormLaws::read_bind), unfolding(lapi_base::specs::Packet::Heads::get_back_form))]
pub(crate) fn read(length: u32, bytes: &[u8]) -> Result<(Head, &[u8]), Fault>
    ensures { Reads (get_back_form length) bytes.now result }
{
    let (dest, rest) = read_range(length, bytes)?;
    let (org, rest) = counter::read(rest)?;
    Ok((Head::GetBack { dest, org }, rest))
}

pub(crate) fn write(dest: u32, org: Option<u32>, out: &mut Frame)
    requires { length out.old + 5 ≤ FRAME_ROOM }
    ensures bytes { out.new ≡ out.old ++ written.head (Head.GetBack dest org) }
    ensures room { length out.new ≤ length out.old + 5 }
{
    write_four(dest, out);
    counter::write(org, out);
}
