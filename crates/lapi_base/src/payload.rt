ghost use Rattle.std.specs.Prelude.{◌≡◌, ◌<◌, ◌≤◌, ◌+◌, [], ◌∷◌, ◌++◌, length};

use crate::layout::PAYLOAD_ROOM;
use arrayvec::ArrayVec;
use std::marker::Model;

/// The bytes of one fragment.
#[derive(Clone, Debug, Drop, Eq, PartialEq)]
pub struct Payload {
    items: ArrayVec<u8, PAYLOAD_ROOM>,
}

impl Model for Payload {
    ghost use Rattle.std.specs.Prelude.{List, ℕ, length, ◌≤◌};
    ghost use Rattle.lapi_base.specs.declared.layout.TheConstants.{PAYLOAD_ROOM};

    ghost Value = { List ℕ };

    ghost view = { λ list. list.items.items };

    ghost invariant = { λ list. length list.items.items ≤ PAYLOAD_ROOM };

    ghost inverse = { λ xs. record { items = record { items = xs } } };
}

impl Payload {
    pub fn new() -> Payload
        ensures { result ≡ [] }
    {
        Payload {
            items: ArrayVec::new(),
        }
    }

    /// Appends a byte.
    pub fn push(&mut self, item: u8)
        requires { length self.old < PAYLOAD_ROOM }
        ensures { self.new ≡ self.old ++ item ∷ [] }
    {
        self.items.push(item);
    }

    /// Appends bytes, in order.
    pub fn extend_from_slice(&mut self, items: &[u8])
        requires { length self.old + length items.now ≤ PAYLOAD_ROOM }
        ensures { self.new ≡ self.old ++ items.now }
    {
        self.items.try_extend_from_slice(items).unwrap();
    }

    pub fn as_slice(&self) -> &[u8]
        ensures items { result.now ≡ self.now }
        ensures bounded { length self.now ≤ PAYLOAD_ROOM }
    {
        self.items.as_slice()
    }
}
