ghost use Rattle.std.specs.Prelude.{◌≡◌, ◌≤◌, ◌+◌, ◌++◌, length};
ghost use Rattle.lapi_base.specs.Packet.Fields.{counter_form};
ghost use Rattle.lapi_packet.specs.Reader.{Reads};
ghost use Rattle.lapi_base.specs.Packet.PacketBytes.{counter};

use crate::fault::{Fault, refused};
use crate::number::{read_one, write_one};
use lapi_base::{FRAME_ROOM, Frame, Reason};

/// A counter of the target or the origin: its number, or ff for none.
///
/// ```text
/// size  field    rule                        reason
/// 1     counter  below 64, or ff for none    Field
/// ```
#[tactic(auto, unfolding(lapi_base::specs::Packet::Fields::counter_form))]
pub(crate) fn read(bytes: &[u8]) -> Result<(Option<u32>, &[u8]), Fault>
    ensures { Reads counter_form bytes.now result }
{
    let (number, rest) = read_one(bytes)?;
    if number == 255 {
        return Ok((None, rest));
    }
    if number >= 64 {
        return Err(refused(bytes, Reason::Field));
    }
    Ok((Some(number), rest))
}

pub(crate) fn write(number: Option<u32>, out: &mut Frame)
    requires { length out.old + 1 ≤ FRAME_ROOM }
    ensures { out.new ≡ out.old ++ counter number }
{
    write_one(number.unwrap_or(255), out);
}
