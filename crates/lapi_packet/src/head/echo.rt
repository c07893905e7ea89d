//! The head of an answer: Am with Echo.
//!
//! ```text
//! size  field   rule                                        reason
//! 4     dest    a multiple of 4, at most 65,532             Field
//! 1     cmpl    below 64, or ff for none                    Field
//! ```

ghost use Rattle.std.specs.Prelude.{◌≡◌, ◌≤◌, ◌+◌, ◌++◌, length};
ghost use Rattle.lapi_base.specs.Packet.Heads.{echo_form};
ghost use Rattle.lapi_packet.specs.Reader.{Reads};
ghost use Rattle.lapi_base.specs.Packet.PacketBytes as written;

use crate::counter;
use crate::fault::Fault;
use crate::number::write_four;
use crate::range::read_word;
use lapi_base::{FRAME_ROOM, Frame, Head};

#[tactic(auto, using(lapi_base::proofs::FormLaws::read_bind), unfolding(lapi_base::specs::Packet::Heads::echo_form))]
pub(crate) fn read(bytes: &[u8]) -> Result<(Head, &[u8]), Fault>
    ensures { Reads echo_form bytes.now result }
{
    let (dest, rest) = read_word(bytes)?;
    let (cmpl, rest) = counter::read(rest)?;
    Ok((Head::Echo { dest, cmpl }, rest))
}

pub(crate) fn write(dest: u32, cmpl: Option<u32>, out: &mut Frame)
    requires { length out.old + 5 ≤ FRAME_ROOM }
    ensures bytes { out.new ≡ out.old ++ written.head (Head.Echo dest cmpl) }
    ensures room { length out.new ≤ length out.old + 5 }
{
    write_four(dest, out);
    counter::write(cmpl, out);
}
