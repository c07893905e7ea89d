//! The head of Gfence with Join.
//!
//! ```text
//! size  field   rule                                        reason
//! 2     round   at most 511                                 Field
//! ```

ghost use Rattle.std.specs.Prelude.{◌≡◌, ◌≤◌, ◌+◌, ◌++◌, length};
ghost use Rattle.lapi_base.specs.Packet.Heads.{gfence_form, round_form};
ghost use Rattle.lapi_packet.specs.Reader.{Reads};
ghost use Rattle.lapi_base.specs.Packet.PacketBytes as written;

use crate::fault::{Fault, refused};
use crate::number::{read_two, write_two};
use lapi_base::{FRAME_ROOM, Frame, Head, Reason};

const LAST_ROUND: u32 = 511;

#[tactic(auto, using(lapi_base::proofs::FormLaws::read_bind), unfolding(lapi_base::specs::Packet::Heads::gfence_form))]
pub(crate) fn read(bytes: &[u8]) -> Result<(Head, &[u8]), Fault>
    ensures { Reads gfence_form bytes.now result }
{
    let (round, rest) = read_round(bytes)?;
    Ok((Head::Gfence { round }, rest))
}

pub(crate) fn write(round: u32, out: &mut Frame)
    requires { length out.old + 2 ≤ FRAME_ROOM }
    ensures bytes { out.new ≡ out.old ++ written.head (Head.Gfence round) }
    ensures room { length out.new ≤ length out.old + 2 }
{
    write_two(round, out);
}

/// The number of a collective call.
#[tactic(auto, unfolding(lapi_base::specs::Packet::Heads::round_form))]
pub(super) fn read_round(bytes: &[u8]) -> Result<(u32, &[u8]), Fault>
    ensures { Reads round_form bytes.now result }
{
    let (round, rest) = read_two(bytes)?;
    if round > LAST_ROUND {
        return Err(refused(bytes, Reason::Field));
    }
    Ok((round, rest))
}
