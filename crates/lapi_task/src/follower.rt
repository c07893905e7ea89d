//! Messages that follow a landing.
ghost use Rattle.std.specs.Prelude.{◌≡◌, ◌∷◌, [], ◌++◌, ◌<◌, ◌≤◌, length, OnOk, Some};
ghost use Rattle.lapi_base.specs.declared.event.Event.TheVariants.{Copy};
ghost use Rattle.lapi_base.specs.declared.layout.TheConstants.{PAYLOAD_ROOM};
ghost use Rattle.lapi_reassembly.specs.Partial.{IsUnit};
ghost use Rattle.lapi_task.specs.Landed.{MayLeave, follower_packet, with_follower};

use crate::packet::append_message;
use lapi_base::{DataPacket, Event, Events, Head, Leg, Memory, MsgName, Payload};
use lapi_link::Sender;
use std::alloc::Global;

/// What the packets have in common, where task `from` sends this leg of the message to task `to`, in a layout.
pub fn follower_packet(
    layout: u32,
    from: u32,
    to: u32,
    name: MsgName,
    leg: Leg,
    head: Head,
    length: u32,
) -> DataPacket
    ensures { result ≡ follower_packet layout from to name leg head length }
{
    DataPacket {
        layout,
        from,
        to,
        seq: 0,
        name: MsgName { leg, ..name },
        head,
        length,
        fragment: 0,
        payload: Payload::new(),
    }
}

/// Gives its fragments their numbers on the link to where it goes, and tells of its copy.
pub fn send(
    alloc: Global,
    senders: &mut Vec<Sender>,
    unit: u32,
    packet: DataPacket,
    bytes: &[u8],
    events: &mut Events,
) -> Result<(), Memory>
    requires link { packet.to < length senders.old.items }
    requires unit { IsUnit unit × (unit ≤ PAYLOAD_ROOM) }
    requires allowed { MayLeave unit (record { packet = packet; bytes = bytes.now }) }
    ensures senders { OnOk result (senders.new.items
        ≡ with_follower unit (Some (record { packet = packet; bytes = bytes.now })) senders.old.items) }
    ensures events { OnOk result (events.new ≡ events.old ++ Copy packet.name ∷ []) }
{
    let name = packet.name;
    let sender = &mut senders[packet.to as usize];
    append_message(alloc, sender, unit, packet, bytes)?;
    events.push(Event::Copy(name))
}
