ghost use Rattle.std.specs.Prelude.{◌≡◌, ◌≢◌, ℕ, ◌+◌, ◌*◌, ◌%◌, ◌^◌, ◌<◌, ◌≤◌, ◌∷◌, true, List, [], Some, IfOk, IfSome, OnOk};
ghost use Rattle.lapi_base.specs.declared.script.Script.{Script};
ghost use Rattle.lapi_base.specs.declared.packet.Packet.{Packet};
ghost use Rattle.lapi_base.specs.declared.packet.Packet.TheVariants.{Data};
ghost use Rattle.lapi_base.specs.declared.message.MsgName.{MsgName};
ghost use Rattle.lapi_base.specs.Record.Below.{bits_of};
ghost use Rattle.lapi_base.specs.Packet.Layout.{window_of};
ghost use Rattle.lapi_base.specs.Record.Wires.{has_number};
ghost use Rattle.lapi_base.specs.Record.Arrived.{least_number};
ghost use Rattle.lapi_window.specs.RecvWindow.{is_taken, base_of};
ghost use Rattle.lapi_reassembly.specs.Partial.{IsUnit, IsMessageOf};
ghost use Rattle.lapi_reassembly.specs.Partials.{partial, is_there, whole_of, kept_of};
ghost use Rattle.lapi_link.specs.declared.arrival.Arrival.TheVariants.{First};
ghost use Rattle.lapi_link.specs.Receiver.{ReceivesFor, IsNewReceiver, MayArrive, MayBring, MayTake, TakesOnce};
ghost use Rattle.lapi_link.specs.Receiver.{is_partial, answer_of, arrival_of, arrival_by, arrival_with, gathered_with};
ghost use Rattle.lapi_link.specs.Receiver.{whole_message};

use crate::arrival::Arrival;
use lapi_base::{DataPacket, HeaderOut, Memory, MsgName};
use lapi_reassembly::{Partials, Put};
use lapi_window::{RecvWindow, Took};
use std::alloc::Global;
use std::marker::Model;

/// The receiving end of a link.
#[derive(Debug, Drop)]
pub struct Receiver {
    window: RecvWindow,
    partials: Partials,
}

impl Model for Receiver {
    ghost use Rattle.lapi_link.specs.Receiver.{ReceivingEnd};

    ghost Value = { ReceivingEnd };

    ghost view = { λ r. record { window = r.window; partials = r.partials } };
}

impl Receiver {
    /// An end to which nothing has come, with a window of that many packets, and fragments of so many bytes.
    pub fn new(alloc: Global, window: u32, unit: u32) -> Result<Receiver, Memory>
        requires window { (1 ≤ window) × (window ≤ 64) }
        requires unit { IsUnit unit }
        ensures { IfOk result (λ made. IsNewReceiver window unit made) }
    {
        let partials = Partials::new(alloc, window, unit)?;
        let window = RecvWindow::new(window);
        Ok(Receiver { window, partials })
    }

    /// Takes a packet that was handed over. Its number lies in the window: below the least missing one plus the window.
    pub fn arrive(&mut self, alloc: Global, packet: &DataPacket) -> Result<Arrival, Memory>
        requires { MayTake self.old packet.now }
        ensures kept { OnOk result ((script : Script) (ps : List Packet) → ReceivesFor script self.old ps
            → MayArrive script ps packet.now → ReceivesFor script self.new (Data packet.now ∷ ps)) }
        ensures arrival { IfOk result (λ arrival. (script : Script) (ps : List Packet)
            → ReceivesFor script self.old ps → MayArrive script ps packet.now
            → arrival ≡ arrival_of script ps packet.now (answer_of self.old packet.now.name)) }
        ensures first { IfOk result (λ arrival. arrival ≡ First → is_partial self.new packet.now.name ≡ true) }
        ensures answers { OnOk result ((m : MsgName) → is_partial self.new m ≡ true
            → answer_of self.new m ≡ answer_of self.old m) }
        ensures whole { IfOk result (λ arrival. IfSome (whole_message arrival)
            (IsMessageOf packet.now.name packet.now.head packet.now.length)) }
        ensures once { IfOk result (λ arrival. TakesOnce self.old self.new packet.now arrival) }
    {
        match self.window.take(packet.seq) {
            Took::Fresh => put(&mut self.partials, alloc, packet),
            Took::Repeat => Ok(Arrival::Repeat),
            Took::Beyond => unreachable!(),
        }
    }

    /// Keeps what the header handler answered for a message of which fragments are missing.
    pub fn answer(&mut self, name: MsgName, out: HeaderOut)
        requires { is_partial self.old name ≡ true }
        ensures kept { (script : Script) (ps : List Packet) → ReceivesFor script self.old ps
            → ReceivesFor script self.new ps }
        ensures numbers { self.new.window ≡ self.old.window }
        ensures answer { answer_of self.new name ≡ Some out }
        ensures others { (other : MsgName) → other ≢ name
            → answer_of self.new other ≡ answer_of self.old other }
    {
        self.partials.answer(name, out);
    }

    /// The least number that was not taken, and which of the next ones were.
    pub fn ack(&self) -> (u32, u64)
        ensures packets { (script : Script) (ps : List Packet) → ReceivesFor script self.now ps
            → (result.0 ≡ least_number ps)
            × (result.1 ≡ bits_of (window_of script) (λ i. has_number ps (least_number ps + i))) }
        ensures base { result.0 ≡ base_of self.now.window }
        ensures bits { result.1 ≡ bits_of self.now.window.window
            (λ i. is_taken self.now.window (base_of self.now.window + i)) }
        ensures fits { (result.1 < 2 ^ self.now.window.window) × (result.1 % 2 ≡ 0) }
    {
        self.window.ack()
    }

    /// The numbers that were taken.
    pub fn window(&self) -> &RecvWindow
        ensures { result.now ≡ self.now.window }
    {
        &self.window
    }

    /// The messages of which some fragments have come and some are missing.
    pub fn partials(&self) -> &Partials
        ensures { result.now ≡ self.now.partials }
    {
        &self.partials
    }
}

// Puts a fragment that has not come before to those of its message.
fn put(partials: &mut Partials, alloc: Global, packet: &DataPacket) -> Result<Arrival, Memory>
    requires { MayBring partials.old packet.now }
    ensures answer { IfOk result (λ arrival.
        arrival ≡ arrival_with (is_there partials.old packet.now.name) (gathered_with partials.old packet.now)) }
    ensures first { IfOk result (λ arrival. arrival ≡ First → is_there partials.new packet.now.name ≡ true) }
    ensures whole { IfOk result (λ arrival. IfSome (whole_message arrival)
        (IsMessageOf packet.now.name packet.now.head packet.now.length)) }
    ensures name { OnOk result (partial partials.new packet.now.name
        ≡ kept_of (gathered_with partials.old packet.now)) }
    ensures others { (other : MsgName) → other ≢ packet.now.name
        → partial partials.new other ≡ partial partials.old other }
    ensures sizes { (partials.new.names ≡ partials.old.names) × (partials.new.unit ≡ partials.old.unit) }
{
    let put = partials.put(
        alloc,
        packet.name,
        &packet.head,
        packet.length,
        packet.fragment,
        packet.payload.as_slice(),
    )?;
    Ok(arrival_by(put))
}

// What comes of a packet, as what comes of its fragment tells.
fn arrival_by(put: Put) -> Arrival
    ensures arrival { result ≡ arrival_by put }
    ensures whole { whole_message result ≡ whole_of put }
{
    match put {
        Put::First => Arrival::First,
        Put::More => Arrival::More,
        Put::Whole(message) => Arrival::Whole(message),
        Put::FirstWhole(message) => Arrival::FirstWhole(message),
    }
}
