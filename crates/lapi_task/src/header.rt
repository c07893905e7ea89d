//! What header handlers answer to active messages.
ghost use Rattle.std.specs.Prelude.{◌≡◌, ◌++◌, true, IfOk, OnOk};
ghost use Rattle.lapi_base.specs.Record.Handlers.{header_answer, header_rule};
ghost use Rattle.lapi_handlers.specs.Handlers.{rules_of};
ghost use Rattle.lapi_handlers.specs.HeaderFn.{IsInRange};
ghost use Rattle.lapi_link.specs.Receiver.{is_partial};
ghost use Rattle.lapi_link.specs.declared.arrival.Arrival.TheVariants.{First};
ghost use Rattle.lapi_task.specs.Answered.{answer_to};
ghost use Rattle.lapi_task.specs.Landed.{MayCall, KeepsAnswer, called, is_first, kept_now, landed};

use lapi_base::{DataPacket, Event, Events, Head, HeaderIn, HeaderOut, Memory, MsgName};
use lapi_handlers::{Handlers, nowhere};
use lapi_link::{Arrival, Receiver};
use lapi_reassembly::Message;

/// Calls the header handler at the first fragment of an active message, and keeps its answer while others are missing.
/// The message, if it is whole now, has the answer.
pub fn answer(
    receiver: &mut Receiver,
    packet: &DataPacket,
    arrival: Arrival,
    handlers: &Handlers,
    events: &mut Events,
) -> Result<Option<Message>, Memory>
    requires call { MayCall packet.now }
    requires partial { arrival ≡ First → is_partial receiver.old packet.now.name ≡ true }
    ensures message { IfOk result (λ m. m ≡ landed (answer_to (rules_of handlers.now) packet.now.name packet.now.head
        packet.now.length) arrival) }
    ensures events { OnOk result (events.new
        ≡ events.old ++ called (is_first arrival) packet.now.name packet.now.head) }
    ensures kept { OnOk result (KeepsAnswer packet.now.name (kept_now arrival (answer_to (rules_of handlers.now)
        packet.now.name packet.now.head packet.now.length)) receiver.old receiver.new) }
{
    match arrival {
        Arrival::Repeat | Arrival::More => Ok(None),
        Arrival::Whole(message) => Ok(Some(message)),
        Arrival::FirstWhole(message) => {
            let out = call(handlers, packet, events)?;
            Ok(Some(Message { out, ..message }))
        }
        Arrival::First => {
            let out = call(handlers, packet, events)?;
            keep(receiver, packet.name, out);
            Ok(None)
        }
    }
}

/// Keeps the answer to the header of a message of which fragments are missing, if there is one.
fn keep(receiver: &mut Receiver, name: MsgName, out: Option<HeaderOut>)
    requires { is_partial receiver.old name ≡ true }
    ensures { KeepsAnswer name out receiver.old receiver.new }
{
    if let Some(out) = out {
        receiver.answer(name, out);
    }
}

/// Calls the header handler, once, where the message is an active one.
fn call(
    handlers: &Handlers,
    packet: &DataPacket,
    events: &mut Events,
) -> Result<Option<HeaderOut>, Memory>
    requires { MayCall packet.now }
    ensures answer { IfOk result (λ out. out
        ≡ answer_to (rules_of handlers.now) packet.now.name packet.now.head packet.now.length) }
    ensures events { OnOk result (events.new ≡ events.old ++ called true packet.now.name packet.now.head) }
{
    let Head::Am {
        handler,
        header,
        ..
    } = &packet.head
    else {
        return Ok(None);
    };
    events.push(Event::Head(packet.name))?;
    let given = HeaderIn {
        origin: packet.name.origin,
        header: header.clone()?,
        length: packet.length,
    };
    Ok(Some(answered(handlers, *handler, &given)))
}

/// What a header handler answers. One that isn't there discards the message, and names no completion handler.
fn answered(handlers: &Handlers, handler: u32, given: &HeaderIn) -> HeaderOut
    requires { IsInRange given.now }
    ensures { result ≡ header_answer (header_rule (rules_of handlers.now) handler) given.now }
{
    if handler < handlers.header_count() {
        return handlers.header(handler, given);
    }
    HeaderOut {
        completion: None,
        ..nowhere(given)
    }
}
