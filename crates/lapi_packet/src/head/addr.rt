//! The head of Addr with Join.
//!
//! ```text
//! size  field   rule                                        reason
//! 2     round   at most 511                                 Field
//! 4     address at most 65,536                              Field
//! ```

ghost use Rattle.std.specs.Prelude.{◌≡◌, ◌≤◌, ◌+◌, ◌++◌, length};
ghost use Rattle.lapi_base.specs.Packet.Heads.{addr_form};
ghost use Rattle.lapi_packet.specs.Reader.{Reads};
ghost use Rattle.lapi_base.specs.Packet.PacketBytes as written;

use crate::fault::{Fault, refused};
use crate::head::gfence::read_round;
use crate::number::{read_four, write_four, write_two};
use crate::range::MEMORY;
use lapi_base::{FRAME_ROOM, Frame, Head, Reason};

#[tactic(auto, using(lapi_base::proofs::FormLaws::read_bind), unfolding(lapi_base::specs::Packet::Heads::addr_form))]
pub(crate) fn read(bytes: &[u8]) -> Result<(Head, &[u8]), Fault>
    ensures { Reads addr_form bytes.now result }
{
    let (round, rest) = read_round(bytes)?;
    let (address, after) = read_four(rest)?;
    if address > MEMORY {
        return Err(refused(rest, Reason::Field));
    }
    Ok((Head::Addr { round, address }, after))
}

pub(crate) fn write(round: u32, address: u32, out: &mut Frame)
    requires { length out.old + 6 ≤ FRAME_ROOM }
    ensures bytes { out.new ≡ out.old ++ written.head (Head.Addr round address) }
    ensures room { length out.new ≤ length out.old + 6 }
{
    write_two(round, out);
    write_four(address, out);
}
