ghost use Rattle.std.specs.Prelude.{◌≡◌, ◌*◌, ◌≤◌, true, false, length, OnOk};
ghost use Rattle.lapi_base.specs.declared.script.Script.{Script};
ghost use Rattle.lapi_base.specs.Record.Operations as operations;
ghost use Rattle.lapi_base.specs.Record.Valid.{ValidStatement};
ghost use Rattle.lapi_calls.specs.Calls.{IsCall, IsSendable};
ghost use Rattle.lapi_reassembly.specs.Partial.{IsUnit};
ghost use Rattle.lapi_vector.specs.Pieces.{AreWithin};
ghost use Rattle.lapi_task.specs.Copies.{copy_of, source};
ghost use Rattle.lapi_task.specs.Outgoing.{with_message, AreSpelled};

use crate::packet::append_message;
use lapi_base::{DataPacket, Leg, Memory, MsgName, PAYLOAD_ROOM, Payload, Spans, Statement};
use lapi_calls::{Entries, go_head, has_back, message_length, origin_counter, origin_spans, peer};
use lapi_link::Sender;
use lapi_memory::TaskMemory;
use lapi_vector::Pieces;
use std::alloc::Global;

/// The copy of a statement's data: what the packets that leave have in common, the pieces whose bytes they bring, and
/// the counter that it announces. Where the data come back, the packets only ask for them.
#[derive(Debug, Drop)]
pub struct DataCopy {
    pub message: DataPacket,
    pub source: Spans,
    pub counter: Option<u32>,
}

impl DataCopy {
    /// The copy of the data of statement `i` of task `t` in a layout, where these addresses are known.
    pub fn of<E: Entries>(
        entries: &E,
        layout: u32,
        t: u32,
        i: u32,
        statement: &Statement,
    ) -> DataCopy
        requires asked { E.valid entries.now }
        requires statement { ValidStatement statement.now × (operations.is_data statement.now ≡ true) }
        requires sendable { IsSendable (E.is_known entries.now) (E.given entries.now) t statement.now }
        ensures { (script : Script) → layout ≡ script.layout
            → IsCall script (E.is_known entries.now) (E.given entries.now) t i statement.now
            → result ≡ copy_of script t i }
    {
        let message = DataPacket {
            layout,
            from: t,
            to: peer(t, statement),
            seq: 0,
            name: MsgName {
                origin: t,
                statement: i,
                leg: Leg::Go,
            },
            head: go_head(entries, t, statement),
            length: message_length(Leg::Go, statement),
            fragment: 0,
            payload: Payload::new(),
        };
        if has_back(statement) {
            return DataCopy {
                message,
                source: Spans::new(),
                counter: None,
            };
        }
        DataCopy {
            message,
            source: origin_spans(statement),
            counter: origin_counter(statement),
        }
    }

    /// Gives numbers to the packets, with the bytes that stand in the memory now. Those of one piece are read where
    /// they stand.
    pub fn append(
        self,
        alloc: Global,
        memory: &TaskMemory,
        unit: u32,
        sender: &mut Sender,
    ) -> Result<(), Memory>
        requires unit { IsUnit unit × (unit ≤ PAYLOAD_ROOM) }
        requires within { AreWithin self.source (length memory.now) }
        requires bytes { (length (source memory.now self) ≡ self.message.length) × (self.message.length ≤ 64 * unit) }
        requires spelled { AreSpelled unit self.message (source memory.now self) }
        ensures { OnOk result (sender.new ≡ with_message unit self.message (source memory.now self) sender.old) }
    {
        let DataCopy {
            message,
            source,
            ..
        } = self;
        if let [span] = source.as_slice() {
            return append_message(alloc, sender, unit, message, memory.read(span));
        }
        let bytes = Pieces::list(source).gather(alloc, memory)?;
        append_message(alloc, sender, unit, message, bytes.as_slice())
    }
}
