//! A message's name.
//!
//! ```text
//! place  size  field      rule                 reason
//! 9      1     origin     equals from or to    Task
//! 10     2     statement  at most 511          Field
//! 12     1     leg        (leg.rt)             Kind
//! ```

ghost use Rattle.std.specs.Prelude.{◌≡◌, ◌≤◌, ◌+◌, ◌++◌, length};
ghost use Rattle.lapi_base.specs.Packet.Layout.{layout_of};
ghost use Rattle.lapi_base.specs.Packet.Spelling.{name_form};
ghost use Rattle.lapi_packet.specs.Reader.{Reads};
ghost use Rattle.lapi_base.specs.Packet.PacketBytes as written;

use crate::fault::{Fault, refused};
use crate::front::Front;
use crate::leg;
use crate::number::{read_one, read_two, write_one, write_two};
use lapi_base::{FRAME_ROOM, Frame, MsgName, Reason};

const LAST_STATEMENT: u32 = 511;

#[tactic(auto, using(lapi_base::proofs::FormLaws::read_bind), unfolding(lapi_base::specs::Packet::Spelling::name_form))]
pub(crate) fn read(front: Front, bytes: &[u8]) -> Result<(MsgName, &[u8]), Fault>
    ensures { Reads (name_form (layout_of front.layout) front.from front.to) bytes.now result }
{
    let (origin, after_origin) = read_one(bytes)?;
    if origin != front.from && origin != front.to {
        return Err(refused(bytes, Reason::Task));
    }
    let (statement, rest) = read_two(after_origin)?;
    if statement > LAST_STATEMENT {
        return Err(refused(after_origin, Reason::Field));
    }
    let (leg, rest) = leg::read(front, origin, rest)?;
    let name = MsgName {
        origin,
        statement,
        leg,
    };
    Ok((name, rest))
}

pub(crate) fn write(name: MsgName, out: &mut Frame)
    requires { length out.old + 4 ≤ FRAME_ROOM }
    ensures { out.new ≡ out.old ++ written.name name }
{
    write_one(name.origin, out);
    write_two(name.statement, out);
    write_one(leg::number_of(name.leg), out);
}
