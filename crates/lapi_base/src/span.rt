ghost use Rattle.std.specs.Prelude.{◌≡◌, ◌<◌, ◌≤◌, [], ◌∷◌, ◌++◌, length};

use arrayvec::ArrayVec;
use std::marker::Model;

/// `len` bytes from a known place of a memory on; the place may lie past its end.
#[derive(Clone, Copy, Debug, Default, Eq, PartialEq)]
pub struct Span {
    pub at: u64,
    pub len: u32,
}

/// At most 16 spans.
#[derive(Clone, Debug, Drop, Eq, PartialEq)]
pub struct Spans {
    items: ArrayVec<Span, 16>,
}

impl Model for Spans {
    ghost use Rattle.std.specs.Prelude.{List, length, ◌≤◌};
    ghost use Rattle.lapi_base.specs.declared.span.Span.{Span};

    ghost Value = { List Span };

    ghost view = { λ list. list.items.items };

    ghost invariant = { λ list. length list.items.items ≤ 16 };

    ghost inverse = { λ xs. record { items = record { items = xs } } };
}

impl Spans {
    pub fn new() -> Spans
        ensures { result ≡ [] }
    {
        Spans {
            items: ArrayVec::new(),
        }
    }

    /// Appends a span.
    pub fn push(&mut self, item: Span)
        requires { length self.old < 16 }
        ensures { self.new ≡ self.old ++ item ∷ [] }
    {
        self.items.push(item);
    }

    pub fn as_slice(&self) -> &[Span]
        ensures items { result.now ≡ self.now }
        ensures bounded { length self.now ≤ 16 }
    {
        self.items.as_slice()
    }
}
