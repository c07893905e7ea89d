//! The leg of a message.
//!
//! ```text
//! place  size  field  rule                                       reason
//! 12     1     leg    1 Go, 2 Back, 3 Note, 4 Join, and in       Kind
//!                     layout 2 alone 5 Echo;
//!                     Go and Join have origin = from,
//!                     Back, Note and Echo have origin = to,
//!                     Join has from different from to
//! ```

ghost use Rattle.std.specs.Prelude.{◌≡◌};
ghost use Rattle.lapi_base.specs.Packet.Layout.{layout_of};
ghost use Rattle.lapi_base.specs.Packet.Spelling.{leg_form, is_leg, leg_of};
ghost use Rattle.lapi_base.specs.Packet.PacketBytes.{leg_number};
ghost use Rattle.lapi_packet.specs.Reader.{Reads};

use crate::fault::{Fault, refused};
use crate::front::Front;
use crate::number::read_one;
use lapi_base::{Leg, Reason, has_echo};

#[tactic(auto, unfolding(lapi_base::specs::Packet::Spelling::leg_form))]
pub(crate) fn read(front: Front, origin: u32, bytes: &[u8]) -> Result<(Leg, &[u8]), Fault>
    ensures { Reads (leg_form (layout_of front.layout) front.from front.to origin) bytes.now result }
{
    let (number, rest) = read_one(bytes)?;
    if !is_leg(front, origin, number) {
        return Err(refused(bytes, Reason::Kind));
    }
    Ok((leg_of(front.to, number), rest))
}

fn is_leg(front: Front, origin: u32, number: u32) -> bool
    ensures { result ≡ is_leg (layout_of front.layout) front.from front.to origin number }
{
    match number {
        1 => origin == front.from,
        2 | 3 => origin == front.to,
        5 => has_echo(front.layout) && origin == front.to,
        _ => number == 4 && origin == front.from && front.from != front.to,
    }
}

fn leg_of(to: u32, number: u32) -> Leg
    ensures { result ≡ leg_of to number }
{
    match number {
        1 => Leg::Go,
        2 => Leg::Back,
        3 => Leg::Note,
        5 => Leg::Echo,
        _ => Leg::Join(to),
    }
}

pub(crate) fn number_of(leg: Leg) -> u32
    ensures { result ≡ leg_number leg }
{
    match leg {
        Leg::Go => 1,
        Leg::Back => 2,
        Leg::Note => 3,
        Leg::Join(_) => 4,
        Leg::Echo => 5,
    }
}
