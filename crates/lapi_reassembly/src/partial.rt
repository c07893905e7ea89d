ghost use Rattle.std.specs.Prelude.{◌≡◌, ◌⊎◌, ℕ, ◌+◌, ◌*◌, ◌<◌, ◌≤◌, ◌↔◌, true, IsTrue, IfOk, Some, length, take, drop, ◌++◌};
ghost use Rattle.lapi_base.specs.Record.Fragments.{fragments_in, fragment_length};
ghost use Rattle.lapi_reassembly.specs.Partial.{IsPartial, nothing_of, with_fragment, is_whole, message};

use crate::head_copy::copy_of;
use crate::message::Message;
use lapi_base::{Bytes, Head, HeaderOut, Memory, MsgName};
use std::alloc::Global;
use std::marker::Model;

/// A message of which some fragments have come.
#[derive(Debug, Drop)]
pub(crate) struct Partial {
    name: MsgName,
    head: Head,
    unit: u32,
    // Bit j tells whether fragment j has come.
    received: u64,
    // The whole message; fragment j stands at `unit * j`, once it has come.
    bytes: Vec<u8>,
    out: Option<HeaderOut>,
}

impl Model for Partial {
    ghost use Rattle.std.specs.Prelude.{length, ◌<◌, ◌^◌};
    ghost use Rattle.lapi_reassembly.specs.Partial.{Gathered, fragments_of, IsPartial};

    ghost Value = { Gathered };

    ghost view = { λ p. record { name = p.name; head = p.head; unit = p.unit; length = length p.bytes.items; fragments = fragments_of p.unit p.received p.bytes.items; out = p.out } };

    ghost invariant = { λ p. IsPartial p.unit (length p.bytes.items) × (p.received < 2 ^ 64) };
}

impl Partial {
    #[tactic(auto, using(crate::proofs::PartialLaws::none_at_first))]
    /// A message of which no fragment has come; fragments have `unit` bytes, but for the last.
    pub(crate) fn new(
        alloc: Global,
        name: MsgName,
        head: &Head,
        length: u32,
        unit: u32,
    ) -> Result<Partial, Memory>
        requires { IsPartial unit length }
        ensures { IfOk result (λ p. p ≡ nothing_of unit name head.now length) }
    {
        let head = copy_of(head)?;
        let bytes = vec![in alloc; 0u8; length as usize]?;
        Ok(Partial {
            name,
            head,
            unit,
            received: 0,
            bytes,
            out: None,
        })
    }

    pub(crate) fn is_of(&self, name: MsgName) -> bool
        ensures { IsTrue result ↔ (self.now.name ≡ name) }
    {
        self.name.is_same(name)
    }

    /// Puts a fragment's payload to its place.
    #[tactic(auto, using(crate::proofs::PartialLaws::fragment_comes, crate::proofs::PartialLaws::length_same, crate::proofs::PartialLaws::place_within, crate::proofs::PartialLaws::more_fits))]
    pub(crate) fn take(&mut self, fragment: u32, payload: &[u8])
        requires fragment { fragment < fragments_in self.old.unit self.old.length }
        requires payload { length payload.now ≡ fragment_length self.old.unit self.old.length fragment }
        ensures { self.new ≡ with_fragment self.old fragment payload.now }
    {
        let at = self.unit as usize * fragment as usize;
        place(&mut self.bytes, at, payload);
        self.received |= 1 << fragment;
    }

    #[tactic(auto, using(crate::proofs::PartialLaws::whole_by_run, crate::proofs::PartialLaws::ceiling, lapi_base::proofs::BitLaws::run_of))]
    pub(crate) fn is_whole(&self) -> bool
        ensures { result ≡ is_whole self.now }
    {
        let length = self.bytes.len() as u32;
        let count = length.div_ceil(self.unit).max(1);
        self.received.trailing_ones() >= count
    }

    /// Keeps the header handler's answer.
    pub(crate) fn keep(&mut self, out: HeaderOut)
        ensures { self.new ≡ record self.old { out = Some out } }
    {
        self.out = Some(out);
    }

    #[tactic(auto, using(crate::proofs::PartialLaws::whole_joined))]
    pub(crate) fn into_message(self) -> Message
        requires { is_whole self ≡ true }
        ensures message { result ≡ message self }
        ensures bytes { length result.bytes ≡ self.length }
    {
        let Partial {
            name,
            head,
            bytes,
            out,
            ..
        } = self;
        Message {
            name,
            head,
            bytes: Bytes::from(bytes),
            out,
        }
    }
}

// Writes bytes over those from `at` on.
fn place(bytes: &mut Vec<u8>, at: usize, part: &[u8])
    requires { at + length part.now ≤ length bytes.old.items }
    ensures length { length bytes.new.items ≡ length bytes.old.items }
    ensures bytes { bytes.new.items ≡ take at bytes.old.items ++ part.now ++ drop (at + length part.now) bytes.old.items }
{
    bytes[at..at + part.len()].copy_from_slice(part);
}
