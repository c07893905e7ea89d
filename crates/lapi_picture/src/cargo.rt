use lapi_base::MsgName;

/// What a chart says of a packet.
#[derive(Clone, Copy, Debug)]
pub enum Cargo {
    Data {
        name: MsgName,
        seq: u32,
        fragment: u32,
    },
    /// An acknowledgement: every number below `base`, and maybe others.
    Ack {
        base: u32,
    },
    /// The bytes spell no packet.
    Nothing,
}
