ghost use Rattle.std.specs.Prelude.{◌≡◌, ◌<◌, ◌≤◌, [], ◌∷◌, ◌++◌, length};

use arrayvec::ArrayVec;
use lapi_base::WIDEST_WINDOW;
use std::marker::Model;

/// The tags of numbers that one acknowledgement covers: at most one for each number of a window.
#[derive(Debug, Drop)]
pub struct Tags {
    items: ArrayVec<u32, WIDEST_WINDOW>,
}

impl Model for Tags {
    ghost use Rattle.std.specs.Prelude.{List, ℕ, length, ◌≤◌};
    ghost use Rattle.lapi_base.specs.declared.layout.TheConstants.{WIDEST_WINDOW};

    ghost Value = { List ℕ };

    ghost view = { λ list. list.items.items };

    ghost invariant = { λ list. length list.items.items ≤ WIDEST_WINDOW };

    ghost inverse = { λ xs. record { items = record { items = xs } } };
}

impl Tags {
    pub fn new() -> Tags
        ensures { result ≡ [] }
    {
        Tags {
            items: ArrayVec::new(),
        }
    }

    /// Appends a tag.
    pub fn push(&mut self, tag: u32)
        requires { length self.old < WIDEST_WINDOW }
        ensures { self.new ≡ self.old ++ tag ∷ [] }
    {
        self.items.push(tag);
    }

    pub fn as_slice(&self) -> &[u32]
        ensures items { result.now ≡ self.now }
        ensures bounded { length self.now ≤ WIDEST_WINDOW }
    {
        self.items.as_slice()
    }
}
