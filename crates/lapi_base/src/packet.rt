use crate::head::Head;
use crate::message::MsgName;
use crate::payload::Payload;

/// One fragment of a message, from task `from` to task `to`.
#[derive(Clone, Debug, Drop, Eq, PartialEq)]
pub struct DataPacket {
    /// The layout that it is spelled in, 1 or 2.
    pub layout: u32,
    pub from: u32,
    pub to: u32,
    /// Its number among the packets of (`from`, `to`), from 0.
    pub seq: u32,
    pub name: MsgName,
    pub head: Head,
    /// The bytes of the whole message.
    pub length: u32,
    /// Its number among the fragments of the message, from 0.
    pub fragment: u32,
    pub payload: Payload,
}

/// What travels on a wire.
#[derive(Clone, Debug, Drop, Eq, PartialEq)]
pub enum Packet {
    Data(DataPacket),
    /// `from` has every number of (`to`, `from`) below `base`, and `base + i` for each bit `i` that is set.
    Ack {
        layout: u32,
        from: u32,
        to: u32,
        base: u32,
        bits: u64,
    },
}
