ghost use Rattle.std.specs.Prelude.{◌≡◌, ◌≤◌, ◌+◌, ◌++◌, length};
ghost use Rattle.lapi_base.specs.Packet.Format.{One, Two, Four, Eight, bytes_of, number_at};
ghost use Rattle.lapi_packet.specs.Reader.{ReaderGives};
ghost use Rattle.lapi_base.specs.Packet.PacketBytes.{one, two, four};

use crate::fault::{Fault, cut_short};
use lapi_base::{FRAME_ROOM, Frame};

/// The number that the first byte is, and the bytes after it.
pub(crate) fn read_one(bytes: &[u8]) -> Result<(u32, &[u8]), Fault>
    ensures { ReaderGives (λ x. (x.0, x.1.now)) result (number_at One bytes.now) }
{
    if bytes.is_empty() {
        return Err(cut_short());
    }
    let (front, rest) = bytes.split_at(1);
    Ok((u32::from(front[0]), rest))
}

/// The number that the first two bytes spell.
pub(crate) fn read_two(bytes: &[u8]) -> Result<(u32, &[u8]), Fault>
    ensures { ReaderGives (λ x. (x.0, x.1.now)) result (number_at Two bytes.now) }
{
    if bytes.len() < 2 {
        return Err(cut_short());
    }
    let (front, rest) = bytes.split_at(2);
    let number = u16::from_be_bytes([front[0], front[1]]);
    Ok((u32::from(number), rest))
}

/// The number that the first four bytes spell.
pub(crate) fn read_four(bytes: &[u8]) -> Result<(u32, &[u8]), Fault>
    ensures { ReaderGives (λ x. (x.0, x.1.now)) result (number_at Four bytes.now) }
{
    if bytes.len() < 4 {
        return Err(cut_short());
    }
    let (front, rest) = bytes.split_at(4);
    let number = u32::from_be_bytes([front[0], front[1], front[2], front[3]]);
    Ok((number, rest))
}

/// The number that the first eight bytes spell.
pub(crate) fn read_eight(bytes: &[u8]) -> Result<(u64, &[u8]), Fault>
    ensures { ReaderGives (λ x. (x.0, x.1.now)) result (number_at Eight bytes.now) }
{
    if bytes.len() < 8 {
        return Err(cut_short());
    }
    let (front, rest) = bytes.split_at(8);
    let number = u64::from_be_bytes([
        front[0], front[1], front[2], front[3], front[4], front[5], front[6], front[7],
    ]);
    Ok((number, rest))
}

/// Appends the lowest byte of a number.
pub(crate) fn write_one(number: u32, out: &mut Frame)
    requires { length out.old + 1 ≤ FRAME_ROOM }
    ensures { out.new ≡ out.old ++ one number }
{
    out.push((number % 256) as u8);
}

/// Appends the lowest two bytes of a number.
pub(crate) fn write_two(number: u32, out: &mut Frame)
    requires { length out.old + 2 ≤ FRAME_ROOM }
    ensures { out.new ≡ out.old ++ two number }
{
    out.extend_from_slice(&((number % 65_536) as u16).to_be_bytes());
}

/// Appends the four bytes of a number.
pub(crate) fn write_four(number: u32, out: &mut Frame)
    requires { length out.old + 4 ≤ FRAME_ROOM }
    ensures { out.new ≡ out.old ++ four number }
{
    out.extend_from_slice(&number.to_be_bytes());
}

/// Appends the eight bytes of a number.
pub(crate) fn write_eight(number: u64, out: &mut Frame)
    requires { length out.old + 8 ≤ FRAME_ROOM }
    ensures { out.new ≡ out.old ++ bytes_of Eight number }
{
    out.extend_from_slice(&number.to_be_bytes());
}
