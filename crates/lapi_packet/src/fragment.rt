//! A fragment of a message.
//!
//! ```text
//! place  size  field      rule                                             reason
//! 14     4     length     at most the longest; 0 with Go of Get, Getv      Field
//!                         and Rmw, with Note and with Join; 4 with Back
//!                         of Rmw and with Echo
//! 18     2     fragment   below max(1, ceiling of length / unit)           Field
//! 20           head       (head.rt)
//!              payload    min(unit, length - unit * fragment) bytes, any
//!
//!                                      layout 1    layout 2
//! unit                                 256         1,024
//! longest of Go of Am                  16,384      16,384
//! longest of all else                  16,384      65,536
//! ```

ghost use Rattle.std.specs.Prelude.{◌≡◌, ◌≤◌};
ghost use Rattle.lapi_base.specs.Packet.Format.{bytes_form};
ghost use Rattle.lapi_base.specs.Record.Fragments.{fragments_in, fragment_length};
ghost use Rattle.lapi_base.specs.Packet.Layout.{layout_of, unit};
ghost use Rattle.lapi_base.specs.Packet.Spelling.{length_form, fragment_form, is_length};
ghost use Rattle.lapi_packet.specs.Codes.{operation_number};
ghost use Rattle.lapi_packet.specs.Reader.{Reads};

use crate::fault::{Fault, cut_short, refused};
use crate::number::{read_four, read_two};
use crate::operation::Operation;
use lapi_base::{LONGEST_ACTIVE, Leg, PAYLOAD_ROOM, Payload, Reason, longest_in, unit_in};

#[tactic(auto, unfolding(lapi_base::specs::Packet::Spelling::length_form))]
pub(crate) fn read_length(
    layout: u32,
    leg: Leg,
    operation: Operation,
    bytes: &[u8],
) -> Result<(u32, &[u8]), Fault>
    ensures { Reads (length_form (layout_of layout) leg (operation_number operation))
        bytes.now result }
{
    let (length, rest) = read_four(bytes)?;
    if !is_length(layout, leg, operation, length) {
        return Err(refused(bytes, Reason::Field));
    }
    Ok((length, rest))
}

fn is_length(layout: u32, leg: Leg, operation: Operation, length: u32) -> bool
    ensures { result ≡ is_length (layout_of layout) leg (operation_number operation) length }
{
    match leg {
        Leg::Go => match operation {
            Operation::Get | Operation::Getv | Operation::Rmw => length == 0,
            Operation::Am => length <= LONGEST_ACTIVE,
            _ => length <= longest_in(layout),
        },
        Leg::Back => match operation {
            Operation::Rmw => length == 4,
            _ => length <= longest_in(layout),
        },
        Leg::Echo => length == 4,
        Leg::Note | Leg::Join(_) => length == 0,
    }
}

#[tactic(auto, unfolding(lapi_base::specs::Packet::Spelling::fragment_form))]
pub(crate) fn read_number(layout: u32, length: u32, bytes: &[u8]) -> Result<(u32, &[u8]), Fault>
    ensures { Reads (fragment_form (layout_of layout) length) bytes.now result }
{
    let (fragment, rest) = read_two(bytes)?;
    if fragment >= fragments(layout, length) {
        return Err(refused(bytes, Reason::Field));
    }
    Ok((fragment, rest))
}

/// How many fragments a message has.
#[tactic(auto, using(crate::proofs::FragmentSizes::ceiling))]
fn fragments(layout: u32, length: u32) -> u32
    ensures { result ≡ fragments_in (unit (layout_of layout)) length }
{
    length.div_ceil(unit_in(layout)).max(1)
}

/// How many bytes a fragment of a message has.
#[tactic(auto, using(crate::proofs::FragmentSizes::size_within))]
fn size_of(layout: u32, length: u32, fragment: u32) -> usize
    ensures size { result ≡ fragment_length (unit (layout_of layout)) length fragment }
    ensures bounded { result ≤ PAYLOAD_ROOM }
{
    let unit = unit_in(layout);
    unit.min(length.saturating_sub(fragment.saturating_mul(unit))) as usize
}

#[tactic(auto, using(lapi_base::proofs::FormLists::read_bytes))]
pub(crate) fn read_payload(
    layout: u32,
    length: u32,
    fragment: u32,
    bytes: &[u8],
) -> Result<(Payload, &[u8]), Fault>
    ensures { Reads (bytes_form (fragment_length (unit (layout_of layout)) length fragment))
        bytes.now result }
{
    let size = size_of(layout, length, fragment);
    if bytes.len() < size {
        return Err(cut_short());
    }
    let (front, rest) = bytes.split_at(size);
    let mut payload = Payload::new();
    payload.extend_from_slice(front);
    Ok((payload, rest))
}
