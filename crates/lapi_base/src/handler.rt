use crate::user_header::UserHeader;

/// What a header handler is given.
#[derive(Clone, Debug, Drop, Eq, PartialEq)]
pub struct HeaderIn {
    pub origin: u32,
    pub header: UserHeader,
    /// The bytes of the whole message.
    pub length: u32,
}

/// Where the message goes, which completion handler follows, and the user value for it.
#[derive(Clone, Copy, Debug, Eq, PartialEq)]
pub struct HeaderOut {
    /// None: the message's bytes are discarded.
    pub place: Option<u64>,
    pub completion: Option<u32>,
    pub user: u32,
}

/// What a completion handler does to the target's memory, at its end.
#[derive(Clone, Copy, Debug, Eq, PartialEq)]
pub enum Effect {
    Nothing,
    /// Writes a big-endian word.
    Word { at: u32, value: u32 },
    /// Writes the buffer's bytes, as they stood when it began.
    Same { at: u32 },
    /// Writes them in reverse order.
    Reversed { at: u32 },
    /// Writes nothing here, and sends a word for this address to the origin.
    Answer { at: u32, value: u32 },
}
