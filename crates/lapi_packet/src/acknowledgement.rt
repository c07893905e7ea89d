//! An acknowledgement, behind its front.
//!
//! ```text
//! place  size            field  rule               reason
//! 5      4               base   any
//! 9      4, in layout 2  bits   bit 0 is clear     NotCanonical
//!        8
//! ```

ghost use Rattle.std.specs.Prelude.{◌≡◌, ◌≤◌, ◌+◌, ◌++◌, length};
ghost use Rattle.lapi_base.specs.Packet.Format.{bytes_of, number_at};
ghost use Rattle.lapi_base.specs.Packet.Layout.{bits_size, layout_of};
ghost use Rattle.lapi_base.specs.Packet.Spelling.{acknowledgement_form};
ghost use Rattle.lapi_packet.specs.Reader.{ReaderGives, Reads};
ghost use Rattle.lapi_base.specs.Packet.PacketBytes.{acknowledgement};

use crate::fault::{Fault, refused};
use crate::front::Front;
use crate::number::{read_eight, read_four, write_eight, write_four};
use lapi_base::{FRAME_ROOM, Frame, Packet, Reason};

#[tactic(auto, unfolding(lapi_base::specs::Packet::Spelling::acknowledgement_form))]
pub(crate) fn read(front: Front, bytes: &[u8]) -> Result<(Packet, &[u8]), Fault>
    ensures { Reads (acknowledgement_form front.layout front.from front.to) bytes.now result }
{
    let (base, rest) = read_four(bytes)?;
    let (bits, after) = read_bits(front.layout, rest)?;
    if bits % 2 != 0 {
        return Err(refused(rest, Reason::NotCanonical));
    }
    let packet = Packet::Ack {
        layout: front.layout,
        from: front.from,
        to: front.to,
        base,
        bits,
    };
    Ok((packet, after))
}

#[tactic(auto, using(crate::proofs::BitsSizes::bits_size_by))]
fn read_bits(layout: u32, bytes: &[u8]) -> Result<(u64, &[u8]), Fault>
    ensures { ReaderGives (λ x. (x.0, x.1.now)) result
        (number_at (bits_size (layout_of layout)) bytes.now) }
{
    if layout == 2 {
        return read_eight(bytes);
    }
    let (bits, rest) = read_four(bytes)?;
    Ok((u64::from(bits), rest))
}

pub(crate) fn write(layout: u32, base: u32, bits: u64, out: &mut Frame)
    requires { length out.old + 12 ≤ FRAME_ROOM }
    ensures { out.new ≡ out.old ++ acknowledgement layout base bits }
{
    write_four(base, out);
    write_bits(layout, bits, out);
}

#[tactic(auto, using(crate::proofs::BitsSizes::bits_size_by))]
fn write_bits(layout: u32, bits: u64, out: &mut Frame)
    requires { length out.old + 8 ≤ FRAME_ROOM }
    ensures { out.new ≡ out.old ++ bytes_of (bits_size (layout_of layout)) bits }
{
    if layout == 2 {
        write_eight(bits, out);
    } else {
        write_four((bits % 4_294_967_296) as u32, out);
    }
}
