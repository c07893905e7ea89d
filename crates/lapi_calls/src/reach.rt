//! Where the pieces of a statement lie.
ghost use Rattle.std.specs.Prelude.{◌≡◌, ◌+◌, ◌*◌, ◌%◌, ◌==◌, ◌<◌, ◌≤◌, ◌&&◌, not, nat_le, [], ◌∷◌, ◌++◌, length};
ghost use Rattle.std.specs.List.{list_any, sum, zip};
ghost use Rattle.lapi_calls.specs.Reaches as reaches;

use arrayvec::ArrayVec;
use lapi_base::{Span, Spans};
use std::marker::Model;

/// Whether a piece's address is known, the address, and how many bytes it has.
#[derive(Clone, Copy, Debug, Default)]
pub struct Reach {
    pub known: bool,
    pub at: u64,
    pub len: u32,
}

/// The pieces of one side of a statement.
#[derive(Debug, Drop)]
pub struct Reaches {
    items: ArrayVec<Reach, 16>,
}

impl Model for Reaches {
    ghost use Rattle.std.specs.Prelude.{List, length, ◌≤◌};
    ghost use Rattle.lapi_calls.specs.declared.reach.Reach.{Reach};

    ghost Value = { List Reach };

    ghost view = { λ list. list.items.items };

    ghost invariant = { λ list. length list.items.items ≤ 16 };
}

impl Reaches {
    /// No piece.
    pub fn new() -> Reaches
        ensures { result ≡ [] }
    {
        Reaches {
            items: ArrayVec::new(),
        }
    }

    /// One piece.
    pub fn one(reach: Reach) -> Reaches
        ensures { result ≡ reach ∷ [] }
    {
        let mut items = ArrayVec::new();
        items.push(reach);
        Reaches { items }
    }

    /// Adds a piece after the others; there are 16 at most.
    pub fn push(&mut self, reach: Reach)
        requires { length self.old < 16 }
        ensures { self.new ≡ self.old ++ reach ∷ [] }
    {
        self.items.push(reach);
    }

    fn as_slice(&self) -> &[Reach]
        ensures items { result.now ≡ self.now }
        ensures bounded { length self.now ≤ 16 }
    {
        self.items.as_slice()
    }

    /// How many pieces there are.
    pub fn len(&self) -> usize
        ensures { result ≡ length self.now }
    {
        self.as_slice().len()
    }

    /// Whether one whose address is known doesn't lie within a memory of this size.
    pub fn any_outside(&self, size: u32) -> bool
        ensures { result ≡ list_any (λ r. r.known && not (nat_le (r.at + r.len) size)) self.now }
    {
        self.as_slice()
            .iter()
            .any(|reach| reach.known && is_beyond(reach, size))
    }

    /// Whether one doesn't lie within a memory of this size.
    pub fn any_beyond(&self, size: u32) -> bool
        ensures { result ≡ list_any (λ r. not (nat_le (r.at + r.len) size)) self.now }
    {
        self.as_slice().iter().any(|reach| is_beyond(reach, size))
    }

    /// Whether an address isn't known.
    pub fn any_unknown(&self) -> bool
        ensures { result ≡ list_any (λ r. not r.known) self.now }
    {
        self.as_slice().iter().any(|reach| !reach.known)
    }

    /// Whether an address is no multiple of 4.
    pub fn any_misaligned(&self) -> bool
        ensures { result ≡ list_any (λ r. not (r.at % 4 == 0)) self.now }
    {
        self.as_slice().iter().any(|reach| reach.at % 4 != 0)
    }

    /// Where the pieces lie, whether or not their addresses are known.
    pub fn spans(&self) -> Spans
        ensures { result ≡ reaches.spans_of self.now }
    {
        let mut spans = Spans::new();
        for reach in self.as_slice() {
            spans.push(Span {
                at: reach.at,
                len: reach.len,
            });
        }
        spans
    }

    /// How many bytes the pieces have together.
    pub fn total(&self) -> u64
        ensures { result ≡ reaches.total_of self.now }
    {
        let mut total = 0;
        for reach in self.as_slice() {
            total += reach.len as u64;
        }
        total
    }

    /// Whether two pieces at the same place of their lists have different lengths.
    pub fn differs(&self, other: &Reaches) -> bool
        ensures { result ≡ list_any (λ pq. not (pq.0.len == pq.1.len)) (zip self.now other.now) }
    {
        let mut pairs = self.as_slice().iter().zip(other.as_slice());
        pairs.any(|(one, other)| one.len != other.len)
    }
}

/// Whether a piece doesn't lie within a memory of this size.
fn is_beyond(reach: &Reach, size: u32) -> bool
    ensures { result ≡ not (nat_le (reach.now.at + reach.now.len) size) }
{
    let size = size as u64;
    reach.at > size || reach.len as u64 > size - reach.at
}
