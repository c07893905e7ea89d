//! A data packet, behind its front.
//!
//! ```text
//! place  size  field      rule
//! 5      4     seq        any
//! 9      4     name       (name.rt)
//! 13     1     op         (operation.rt)
//! 14     4     length     (fragment.rt)
//! 18     2     fragment   (fragment.rt)
//! 20           head       (head.rt)
//!              payload    (fragment.rt)
//! ```

ghost use Rattle.std.specs.Prelude.{◌≡◌, ◌≤◌, ◌+◌, [], ◌++◌, length};
ghost use Rattle.lapi_base.specs.Packet.Spelling.{data_form};
ghost use Rattle.lapi_packet.specs.Reader.{Reads};
ghost use Rattle.lapi_base.specs.Packet.PacketBytes as written;

use crate::fault::Fault;
use crate::front::{Front, Kind};
use crate::number::{read_four, write_four, write_one, write_two};
use crate::{fragment, front, head, name, operation};
use lapi_base::{DataPacket, FRAME_ROOM, Frame, Packet};

#[tactic(auto, using(lapi_base::proofs::FormLaws::read_bind), unfolding(lapi_base::specs::Packet::Spelling::data_form))]
pub(crate) fn read(front: Front, bytes: &[u8]) -> Result<(Packet, &[u8]), Fault>
    ensures { Reads (data_form front.layout front.from front.to) bytes.now result }
{
    let (seq, rest) = read_four(bytes)?;
    let (name, rest) = name::read(front, rest)?;
    let (operation, rest) = operation::read(name.leg, rest)?;
    let (length, rest) = fragment::read_length(front.layout, name.leg, operation, rest)?;
    let (fragment, rest) = fragment::read_number(front.layout, length, rest)?;
    let (head, rest) = head::read(front.layout, name.leg, operation, length, rest)?;
    let (payload, rest) = fragment::read_payload(front.layout, length, fragment, rest)?;
    let packet = DataPacket {
        layout: front.layout,
        from: front.from,
        to: front.to,
        seq,
        name,
        head,
        length,
        fragment,
        payload,
    };
    Ok((Packet::Data(packet), rest))
}

/// Appends the bytes of any data packet, each field reduced to its size, where a frame has room for them. It has for
/// each packet that has a spelling; of another one the payload may be left out.
pub(crate) fn write(packet: &DataPacket, out: &mut Frame)
    requires { out.old ≡ [] }
    ensures { length (written.packet_data packet.now) ≤ FRAME_ROOM
        → out.new ≡ written.packet_data packet.now }
{
    let front = Front {
        layout: packet.layout,
        kind: Kind::Data,
        from: packet.from,
        to: packet.to,
    };
    front::write(front, out);
    write_four(packet.seq, out);
    name::write(packet.name, out);
    write_one(operation::number_of(&packet.head), out);
    write_four(packet.length, out);
    write_two(packet.fragment, out);
    head::write(&packet.head, out);
    let payload = packet.payload.as_slice();
    if payload.len() <= FRAME_ROOM - out.as_slice().len() {
        out.extend_from_slice(payload);
    }
}
