//! What a task does with what comes to it.
ghost use Rattle.std.specs.Prelude.{◌≡◌, ℕ, ◌<◌, ◌≤◌, ◌∷◌, [], ◌++◌, List, Ok, Err, IfOk, OnOk, length, slice_get, Some};
ghost use Rattle.lapi_base.specs.declared.rule.Rules.{Rules};
ghost use Rattle.lapi_base.specs.declared.script.Script.{Script};
ghost use Rattle.lapi_base.specs.declared.packet.Packet.{Packet as ThePacket};
ghost use Rattle.lapi_base.specs.declared.packet.Packet.TheVariants.{Data};
ghost use Rattle.lapi_base.specs.declared.reply.Bad.{Bad};
ghost use Rattle.lapi_base.specs.Record.Wires.{Run};
ghost use Rattle.lapi_base.specs.Record.Acts.{deliver};
ghost use Rattle.lapi_base.specs.Packet.Spelling.{Spells, HasSpelling, decoded};
ghost use Rattle.lapi_handlers.specs.Handlers.{rules_of};
ghost use Rattle.lapi_link.specs.Receiver.{ReceivingEnd};
ghost use Rattle.lapi_task.specs.Alone.{IsReceived, DataIsReceived};
ghost use Rattle.lapi_task.specs.Answered.{answer_to};
ghost use Rattle.lapi_task.specs.HasEffect.{IsAt, IsAtSome, HasEffect, received_as};
ghost use Rattle.lapi_task.specs.Landed.{ArrivalMayLand, ArrivalMayAnswer, HasArrived, MayCome, MayCall, HasCome};
ghost use Rattle.lapi_task.specs.MayReceive.{MayReceive};
ghost use Rattle.lapi_task.specs.StandsFor.{task_unit};
ghost use Rattle.lapi_base.specs.declared.layout.TheConstants.{PAYLOAD_ROOM};

use crate::counting::announce;
use crate::header::answer;
use crate::landing::{announced_by, write};
use crate::outcome::Outcome;
use crate::queueing::{completion, job, queue};
use crate::received::Received;
use crate::task::Task;
use lapi_base::{DataPacket, Event, Events, Memory, Packet};
use lapi_handlers::Handlers;
use lapi_link::Receiver;
use lapi_packet::decode;
use lapi_reassembly::Message;
use std::alloc::Global;

impl Task {
    /// Takes what comes from task `from`. Bytes that spell no packet are refused, and change nothing.
    pub fn receive(
        &mut self,
        alloc: Global,
        from: u32,
        bytes: &[u8],
        handlers: &Handlers,
        out: &mut Outcome,
    ) -> Result<Received, Memory>
        requires stands { (p : ThePacket) → Spells p bytes.now → IsAtSome self.old }
        requires may { (p : ThePacket) → Spells p bytes.now → MayReceive self.old from p }
        ensures refused { (bad : Bad) → decoded bytes.now ≡ Err bad → (result ≡ Ok (Received.Refused bad))
            × (self.new ≡ self.old) × (out.new ≡ out.old) }
        ensures kind { IfOk result (λ received. received ≡ received_as (decoded bytes.now)) }
        ensures effect { OnOk result ((script : Script) (t k : ℕ) (r : Run) (p : ThePacket)
            → let rules = rules_of handlers.now in IsAt script rules t self.old r → from < script.tasks
            → Spells p bytes.now → slice_get (r.wire from t) k ≡ Some p
            → HasEffect script rules t r (deliver script rules r from t k) self.new out.old out.new) }
        ensures alone { OnOk result ((p : ThePacket) → Spells p bytes.now
            → IsReceived self.old self.new from p out.old out.new) }
    {
        match decode(bytes) {
            Err(bad) => Ok(Received::Refused(bad)),
            Ok(Packet::Ack { base, bits, .. }) => {
                self.acknowledged(from, base, bits);
                Ok(Received::Ack)
            }
            Ok(Packet::Data(packet)) => {
                self.arrive(alloc, from, &packet, handlers, out)?;
                Ok(Received::Data)
            }
        }
    }

    /// Takes a data packet, and tells task `from` what was taken of what it sent.
    fn arrive(
        &mut self,
        alloc: Global,
        from: u32,
        packet: &DataPacket,
        handlers: &Handlers,
        out: &mut Outcome,
    ) -> Result<(), Memory>
        requires stands { IsAtSome self.old }
        requires spelled { HasSpelling (Data packet.now) }
        requires may { MayReceive self.old from (Data packet.now) }
        ensures effect { OnOk result ((script : Script) (t k : ℕ) (r : Run)
            → let rules = rules_of handlers.now in IsAt script rules t self.old r → from < script.tasks
            → slice_get (r.wire from t) k ≡ Some (Data packet.now)
            → HasEffect script rules t r (deliver script rules r from t k) self.new out.old out.new) }
        ensures alone { OnOk result (DataIsReceived self.old self.new from packet.now out.old out.new) }
    {
        let message = take(
            &mut self.receivers,
            alloc,
            from,
            packet,
            handlers,
            &mut out.events,
        )?;
        self.take_effect(alloc, from, &message, handlers, &mut out.events)?;
        self.unfinished.arrived(&message);
        self.tell(alloc, from, &mut out.entries)
    }

    /// What came whole from task `from` takes effect, if a message did.
    fn take_effect(
        &mut self,
        alloc: Global,
        from: u32,
        message: &Option<Message>,
        handlers: &Handlers,
        events: &mut Events,
    ) -> Result<(), Memory>
        requires link { (from < length self.old.senders.items) × (task_unit self.old ≤ PAYLOAD_ROOM) }
        requires allowed { ArrivalMayLand from (length (rules_of handlers.now).completions) message.now
            self.old.state.memory self.old.state.counters self.old.state.collective }
        requires follows { ArrivalMayAnswer self.old.sizes.layout self.old.state.number from
            (length (rules_of handlers.now).completions) message.now self.old.state.memory }
        ensures { OnOk result (HasArrived from (length (rules_of handlers.now).completions) message.now self.old
            self.new events.old events.new) }
    {
        match message {
            Some(message) => self.land(alloc, from, message, handlers, events),
            None => Ok(()),
        }
    }

    /// A message of which all fragments have come takes effect.
    fn land(
        &mut self,
        alloc: Global,
        from: u32,
        message: &Message,
        handlers: &Handlers,
        events: &mut Events,
    ) -> Result<(), Memory>
        requires link { (from < length self.old.senders.items) × (task_unit self.old ≤ PAYLOAD_ROOM) }
        requires allowed { ArrivalMayLand from (length (rules_of handlers.now).completions) (Some message.now)
            self.old.state.memory self.old.state.counters self.old.state.collective }
        requires follows { ArrivalMayAnswer self.old.sizes.layout self.old.state.number from
            (length (rules_of handlers.now).completions) (Some message.now) self.old.state.memory }
        ensures { OnOk result (HasArrived from (length (rules_of handlers.now).completions) (Some message.now) self.old
            self.new events.old events.new) }
    {
        let Message {
            name,
            head,
            bytes,
            out,
        } = message;
        let completion = completion(handlers, *out);
        let job = job(message, &self.state.memory, completion);
        events.push(Event::Land(*name))?;
        self.follow(alloc, from, *name, head, completion.is_some(), events)?;
        write(&mut self.state.memory, head, *out, bytes.as_slice())?;
        queue(&mut self.state.jobs, job)?;
        self.state.collective.join(from, head);
        announce(
            &mut self.state.counters,
            announced_by(head, completion.is_some()),
        )
    }
}

/// The end of the link from task `from` takes a packet; the header handler is called at the first fragment of an active
/// message. The message, if it is whole now.
fn take(
    receivers: &mut [Receiver],
    alloc: Global,
    from: u32,
    packet: &DataPacket,
    handlers: &Handlers,
    events: &mut Events,
) -> Result<Option<Message>, Memory>
    requires come { MayCome receivers.old from packet.now }
    requires call { MayCall packet.now }
    ensures { IfOk result (λ message. (end : ReceivingEnd) → slice_get receivers.old from ≡ Some end
        → HasCome receivers.old receivers.new from packet.now (answer_to (rules_of handlers.now) packet.now.name
        packet.now.head packet.now.length) message events.old events.new end) }
{
    let receiver = &mut receivers[from as usize];
    let arrival = receiver.arrive(alloc, packet)?;
    answer(receiver, packet, arrival, handlers, events)
}
