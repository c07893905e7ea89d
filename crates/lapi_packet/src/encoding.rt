ghost use Rattle.std.specs.Prelude.{◌≡◌, ◌≤◌, length};
ghost use Rattle.lapi_base.specs.declared.packet.Packet.TheVariants.{Data};
ghost use Rattle.lapi_base.specs.Packet.Spelling.{Spells, HasSpelling};
ghost use Rattle.lapi_base.specs.Packet.PacketBytes as written;

use crate::front::{Front, Kind};
use crate::{acknowledgement, data, front};
use lapi_base::{DataPacket, FRAME_ROOM, Frame, Packet};

/// Leaves in `out` the one spelling of a packet, and nothing else.
pub fn encode(p: &Packet, out: &mut Frame)
    requires { HasSpelling p.now }
    ensures { Spells p.now out.new }
{
    write(p, out);
}

/// Leaves in `out` the one spelling of a data packet, and nothing else.
pub fn encode_data(p: &DataPacket, out: &mut Frame)
    requires { HasSpelling (Data p.now) }
    ensures { Spells (Data p.now) out.new }
{
    out.clear();
    data::write(p, out);
}

/// Leaves in `out` the bytes of any packet, each field reduced to its size, where a frame has room for them. It has
/// for each packet that has a spelling.
pub(crate) fn write(p: &Packet, out: &mut Frame)
    ensures { length (written.packet p.now) ≤ FRAME_ROOM → out.new ≡ written.packet p.now }
{
    out.clear();
    match p {
        Packet::Data(packet) => data::write(packet, out),
        Packet::Ack {
            layout,
            from,
            to,
            base,
            bits,
        } => {
            let front = Front {
                layout: *layout,
                kind: Kind::Acknowledgement,
                from: *from,
                to: *to,
            };
            front::write(front, out);
            acknowledgement::write(*layout, *base, *bits, out);
        }
    }
}
