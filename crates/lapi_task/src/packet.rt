//! Packets that leave the task.
ghost use Rattle.std.specs.Prelude.{◌≡◌, ◌*◌, ◌≤◌, length, IfOk, OnOk};
ghost use Rattle.lapi_base.specs.declared.packet.Packet.TheVariants.{Data};
ghost use Rattle.lapi_base.specs.Record.Fragments.{fragments_in, fragment_bytes};
ghost use Rattle.lapi_base.specs.Packet.Spelling.{HasSpelling};
ghost use Rattle.lapi_base.specs.Packet.PacketBytes as written;
ghost use Rattle.lapi_reassembly.specs.Partial.{IsUnit};
ghost use Rattle.lapi_link.specs.Sender.{appended};
ghost use Rattle.lapi_task.specs.Outgoing.{tag_of, with_message, AreSpelled};

use lapi_base::{
    Bytes, DataPacket, FRAME_ROOM, Frame, Head, Leg, Memory, PAYLOAD_ROOM, Packet, Payload,
};
use lapi_link::Sender;
use lapi_packet::{encode, encode_data};
use std::alloc::Global;

/// The bytes of a packet.
pub fn spelled(alloc: Global, packet: &Packet) -> Result<Bytes, Memory>
    requires { HasSpelling packet.now }
    ensures bytes { IfOk result (λ bytes. bytes ≡ written.packet packet.now) }
    ensures short { IfOk result (λ bytes. length bytes ≤ FRAME_ROOM) }
{
    let mut frame = Frame::new();
    encode(packet, &mut frame);
    Bytes::from_slice(alloc, frame.as_slice())
}

/// The bytes of a data packet.
fn spelled_data(alloc: Global, packet: &DataPacket) -> Result<Bytes, Memory>
    requires { HasSpelling (Data packet.now) }
    ensures bytes { IfOk result (λ bytes. bytes ≡ written.packet (Data packet.now)) }
    ensures short { IfOk result (λ bytes. length bytes ≤ FRAME_ROOM) }
{
    let mut frame = Frame::new();
    encode_data(packet, &mut frame);
    Bytes::from_slice(alloc, frame.as_slice())
}

/// Gives the next number of a link to a data packet, which is sent by a poll.
fn append(
    alloc: Global,
    sender: &mut Sender,
    packet: &DataPacket,
    tag: Option<u32>,
) -> Result<(), Memory>
    requires { HasSpelling (Data packet.now) }
    ensures { OnOk result (sender.new ≡ appended sender.old (written.packet (Data packet.now)) tag) }
{
    let bytes = spelled_data(alloc, packet)?;
    sender.append(bytes, tag)
}

/// The tag of its numbers: the statement whose data are done once they are acknowledged. Data that are answered are
/// done by the answer.
fn tag_of(packet: &DataPacket) -> Option<u32>
    ensures { result ≡ tag_of packet.now }
{
    match packet.name.leg {
        Leg::Go => {}
        Leg::Back | Leg::Note | Leg::Echo | Leg::Join(_) => return None,
    }
    match packet.head {
        Head::GetGo { .. } | Head::GetvGo { .. } | Head::RmwGo { .. } => None,
        Head::Put { .. }
        | Head::Putv { .. }
        | Head::Am { .. }
        | Head::GetBack { .. }
        | Head::GetvBack { .. }
        | Head::RmwBack { .. }
        | Head::Note { .. }
        | Head::Echo { .. }
        | Head::Gfence { .. }
        | Head::Addr { .. } => Some(packet.name.statement),
    }
}

/// Gives numbers to all fragments of a message with these bytes; each but the last has `unit` bytes. The packet has what
/// they have in common.
pub fn append_message(
    alloc: Global,
    sender: &mut Sender,
    unit: u32,
    mut packet: DataPacket,
    bytes: &[u8],
) -> Result<(), Memory>
    requires unit { IsUnit unit × (unit ≤ PAYLOAD_ROOM) }
    requires bytes { (length bytes.now ≡ packet.length) × (packet.length ≤ 64 * unit) }
    requires spelled { AreSpelled unit packet bytes.now }
    ensures { OnOk result (sender.new ≡ with_message unit packet bytes.now sender.old) }
{
    let tag = tag_of(&packet);
    for fragment in 0..packet.length.div_ceil(unit).max(1) {
        packet.seq = sender.window().numbers();
        packet.fragment = fragment;
        packet.payload = payload_of(bytes, unit, fragment);
        append(alloc, sender, &packet, tag)?;
    }
    Ok(())
}

/// How many fragments a message of this length has, where each but the last has `unit` bytes. An empty one has one.
pub fn fragment_count(unit: u32, length: u32) -> u32
    requires { IsUnit unit }
    ensures { result ≡ fragments_in unit length }
{
    length.div_ceil(unit).max(1)
}

/// The bytes of one fragment, where each but the last has `unit`.
#[tactic(auto, using(std::proofs::lemmas::List::take_min))]
fn payload_of(bytes: &[u8], unit: u32, fragment: u32) -> Payload
    requires unit { unit ≤ PAYLOAD_ROOM }
    requires within { unit * fragment ≤ length bytes.now }
    ensures { result ≡ fragment_bytes unit fragment bytes.now }
{
    let (_, rest) = bytes.split_at(unit as usize * fragment as usize);
    let (part, _) = rest.split_at((unit as usize).min(rest.len()));
    let mut payload = Payload::new();
    payload.extend_from_slice(part);
    payload
}
