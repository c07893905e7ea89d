ghost use Rattle.std.specs.Prelude.{◌≡◌, ◌<◌, ◌≤◌, [], ◌∷◌, ◌++◌, length};

use crate::address::Addr;
use arrayvec::ArrayVec;
use std::marker::Model;

/// `len` bytes from an address on.
#[derive(Clone, Copy, Debug, Default, Eq, PartialEq)]
pub struct Piece {
    pub at: Addr,
    pub len: u32,
}

/// The pieces of a vector, 1 to 16, in the order in which they are read or written.
#[derive(Clone, Debug, Drop, Eq, PartialEq)]
pub struct PieceList {
    items: ArrayVec<Piece, 16>,
}

impl Model for PieceList {
    ghost use Rattle.std.specs.Prelude.{List, length, ◌≤◌};
    ghost use Rattle.lapi_base.specs.declared.piece.Piece.{Piece};

    ghost Value = { List Piece };

    ghost view = { λ list. list.items.items };

    ghost invariant = { λ list. (1 ≤ length list.items.items) × (length list.items.items ≤ 16) };

    ghost inverse = { λ xs. record { items = record { items = xs } } };
}

impl PieceList {
    pub fn new(first: Piece) -> PieceList
        ensures { result ≡ first ∷ [] }
    {
        let mut items = ArrayVec::new();
        items.push(first);
        PieceList { items }
    }

    /// A copy of the list.
    pub fn copy(&self) -> PieceList
        ensures { result ≡ self.now }
    {
        match ArrayVec::try_from(self.as_slice()) {
            Ok(items) => PieceList { items },
            Err(_) => unreachable!(),
        }
    }

    /// Appends a piece.
    pub fn push(&mut self, item: Piece)
        requires { length self.old < 16 }
        ensures { self.new ≡ self.old ++ item ∷ [] }
    {
        self.items.push(item);
    }

    pub fn as_slice(&self) -> &[Piece]
        ensures items { result.now ≡ self.now }
        ensures nonempty { 1 ≤ length self.now }
        ensures bounded { length self.now ≤ 16 }
    {
        self.items.as_slice()
    }
}
