use crate::message::Message;

/// What comes of a fragment.
#[derive(Debug, Drop)]
pub enum Put {
    /// It is the message's first, and others are missing.
    First,
    /// It is a later one, and others are missing.
    More,
    /// It is a later one, and none is missing.
    Whole(Message),
    /// It is the only one.
    FirstWhole(Message),
}
