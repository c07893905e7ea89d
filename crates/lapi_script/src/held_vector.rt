//! A vector as it is held while its line is read.

use lapi_base::Vector;

#[derive(Debug, Drop)]
pub(crate) enum HeldVector {
    Held(Vector),
    /// A list of more than 16 pieces. Nothing is kept of them.
    TooManyPieces,
}
