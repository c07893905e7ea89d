ghost use Rattle.std.specs.Prelude.{◌≡◌, ◌<◌, ◌≤◌, ◌+◌, [], ◌∷◌, ◌++◌, length};

use crate::layout::FRAME_ROOM;
use arrayvec::ArrayVec;
use std::marker::Model;

/// Room for the bytes of one packet.
#[derive(Clone, Debug, Drop, Eq, PartialEq)]
pub struct Frame {
    items: ArrayVec<u8, FRAME_ROOM>,
}

impl Model for Frame {
    ghost use Rattle.std.specs.Prelude.{List, ℕ, length, ◌≤◌};
    ghost use Rattle.lapi_base.specs.declared.layout.TheConstants.{FRAME_ROOM};

    ghost Value = { List ℕ };

    ghost view = { λ list. list.items.items };

    ghost invariant = { λ list. length list.items.items ≤ FRAME_ROOM };

    ghost inverse = { λ xs. record { items = record { items = xs } } };
}

impl Frame {
    pub fn new() -> Frame
        ensures { result ≡ [] }
    {
        Frame {
            items: ArrayVec::new(),
        }
    }

    /// Lets go of all bytes.
    pub fn clear(&mut self)
        ensures { self.new ≡ [] }
    {
        self.items.clear();
    }

    /// Appends a byte.
    pub fn push(&mut self, item: u8)
        requires { length self.old < FRAME_ROOM }
        ensures { self.new ≡ self.old ++ item ∷ [] }
    {
        self.items.push(item);
    }

    /// Appends bytes, in order.
    pub fn extend_from_slice(&mut self, items: &[u8])
        requires { length self.old + length items.now ≤ FRAME_ROOM }
        ensures { self.new ≡ self.old ++ items.now }
    {
        self.items.try_extend_from_slice(items).unwrap();
    }

    pub fn as_slice(&self) -> &[u8]
        ensures items { result.now ≡ self.now }
        ensures bounded { length self.now ≤ FRAME_ROOM }
    {
        self.items.as_slice()
    }
}
