use lapi_reassembly::Message;

/// What comes of a data packet.
#[derive(Debug, Drop)]
pub enum Arrival {
    /// Its number was taken before.
    Repeat,
    /// It is the first fragment of its message, and others are missing.
    First,
    /// Others came before, and others are missing still.
    More,
    /// Others came before, and none is missing.
    Whole(Message),
    /// It is the only fragment of its message.
    FirstWhole(Message),
}
