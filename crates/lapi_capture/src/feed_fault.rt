use crate::flaw::Flaw;

/// What stops a reader. A place is that of a byte, the first being 0.
#[derive(Clone, Copy, Debug, Eq, PartialEq)]
pub enum FeedFault {
    /// The first fault of the bytes.
    Bad { place: u64, flaw: Flaw },
    /// More frames than a capture may have: the first that is too many begins there.
    Limit { place: u64 },
    /// There was no memory left.
    Memory,
}
