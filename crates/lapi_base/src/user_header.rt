ghost use Rattle.std.specs.Prelude.{◌≡◌, ◌<◌, ◌≤◌, ◌+◌, [], ◌∷◌, ◌++◌, length};

use arrayvec::ArrayVec;
use std::marker::Model;

/// The user header of an active message, at most 64 bytes.
#[derive(Clone, Debug, Drop, Eq, PartialEq)]
pub struct UserHeader {
    items: ArrayVec<u8, 64>,
}

impl Model for UserHeader {
    ghost use Rattle.std.specs.Prelude.{List, ℕ, length, ◌≤◌};

    ghost Value = { List ℕ };

    ghost view = { λ list. list.items.items };

    ghost invariant = { λ list. length list.items.items ≤ 64 };

    ghost inverse = { λ xs. record { items = record { items = xs } } };
}

impl UserHeader {
    pub fn new() -> UserHeader
        ensures { result ≡ [] }
    {
        UserHeader {
            items: ArrayVec::new(),
        }
    }

    /// Appends a byte.
    pub fn push(&mut self, item: u8)
        requires { length self.old < 64 }
        ensures { self.new ≡ self.old ++ item ∷ [] }
    {
        self.items.push(item);
    }

    /// Appends bytes, in order.
    pub fn extend_from_slice(&mut self, items: &[u8])
        requires { length self.old + length items.now ≤ 64 }
        ensures { self.new ≡ self.old ++ items.now }
    {
        self.items.try_extend_from_slice(items).unwrap();
    }

    pub fn as_slice(&self) -> &[u8]
        ensures items { result.now ≡ self.now }
        ensures bounded { length self.now ≤ 64 }
    {
        self.items.as_slice()
    }
}
