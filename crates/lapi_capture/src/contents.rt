ghost use Rattle.std.specs.Prelude.{◌≡◌, ◌<◌, ◌≤◌, length, IfSome};
ghost use Rattle.lapi_base.specs.Packet.Spelling.{decoded};
ghost use Rattle.lapi_capture.specs.Format.{part_of, part_by, is_addressed, is_addressed_by};

use crate::format::{FRONT, byte_at};
use crate::incoming::Incoming;
use crate::part::{MOST_FRAGMENTS, Part};
use lapi_base::Packet;
use lapi_packet::decode;

/// Whether a whole frame's packet is of the frame's tasks, and the part of a message that it holds.
#[tactic(auto, unfolding(crate::specs::Format::is_addressed, crate::specs::Format::part_of))]
pub(crate) fn contents(frame: &[u8]) -> (bool, Option<Part>)
    requires { FRONT ≤ length frame.now }
    ensures addressed { result.0 ≡ is_addressed frame.now }
    ensures part { result.1 ≡ part_of frame.now }
    ensures few { IfSome result.1 (λ part. part.fragment < MOST_FRAGMENTS) }
{
    let from = byte_at(frame, 0) as u32;
    let to = byte_at(frame, 1) as u32;
    let (_, bytes) = frame.split_at(FRONT);
    contents_of(from, to, bytes)
}

#[tactic(auto, using(crate::proofs::FewFragments::few_fragments))]
fn contents_of(from: u32, to: u32, bytes: &[u8]) -> (bool, Option<Part>)
    ensures addressed { result.0 ≡ is_addressed_by from to (decoded bytes.now) }
    ensures part { result.1 ≡ part_by (decoded bytes.now) }
    ensures few { IfSome result.1 (λ part. part.fragment < MOST_FRAGMENTS) }
{
    match decode(bytes) {
        Err(_) => (true, None),
        Ok(
            Packet::Ack {
                from: sender,
                to: receiver,
                ..
            },
        ) => (sender == from && receiver == to, None),
        Ok(Packet::Data(packet)) => {
            let message = Incoming {
                name: packet.name,
                to: packet.to,
            };
            let part = Part {
                message,
                layout: packet.layout,
                length: packet.length,
                fragment: packet.fragment,
            };
            (packet.from == from && packet.to == to, Some(part))
        }
    }
}
