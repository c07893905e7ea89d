ghost use Rattle.std.specs.Prelude.{◌≡◌, ℕ, ◌+◌, ◌*◌, ◌^◌, ◌<◌, ◌≤◌, ◌==◌, ◌↔◌, not, IsTrue, IfOk, false, nat_lt, List, length, slice_index};
ghost use Rattle.std.specs.Result.{result_err};
ghost use Rattle.std.specs.List.{flat_map, fold, list_any, zip};
ghost use Rattle.lapi_base.specs.declared.script.Script.{Script};
ghost use Rattle.lapi_base.specs.declared.address.Addr.{Addr};
ghost use Rattle.lapi_base.specs.declared.vector.Vector.{Vector};
ghost use Rattle.lapi_base.specs.declared.vector.Vector.TheVariants.{Stride};
ghost use Rattle.lapi_base.specs.declared.piece.Piece.{Piece};
ghost use Rattle.lapi_base.specs.Record.Operations.{address, spans as spans_of};
ghost use Rattle.lapi_base.specs.Record.Values.{Memories, gathered, scattered, byte_after};
ghost use Rattle.lapi_memory.specs.TaskMemory.{bytes_at, written, IsMemoryOf};
ghost use Rattle.lapi_vector.specs.Pieces.{Side, total_of, AreWithin, stride_spans, IsSideOf, why, side_why};

use lapi_base::{Bytes, Memory, Refusal, Span, Spans};
use lapi_memory::TaskMemory;
use std::alloc::Global;
use std::marker::Model;

/// One side of a vector: at most 16 pieces of a memory, in the order in which they are read or written.
#[derive(Debug, Drop)]
pub struct Pieces {
    spans: Spans,
    // whether they stand at a stride below the length of a block
    below_block: bool,
}

impl Model for Pieces {
    ghost use Rattle.lapi_vector.specs.Pieces.{Side};

    ghost Value = { Side };

    ghost view = { λ p. record { spans = p.spans; below_block = p.below_block } };
}

impl Pieces {
    /// These pieces, which may overlap.
    #[tactic(auto, unfolding(lapi_base::specs::Record::Operations::pieces_of))]
    pub fn list(spans: Spans) -> Pieces
        ensures side { result ≡ record { spans = spans; below_block = false } }
        ensures vector { (script : Script) (target : ℕ) (pieces : List Piece) → spans_of script target pieces ≡ spans → IsSideOf script target (Vector.List pieces) result }
    {
        Pieces {
            spans,
            below_block: false,
        }
    }

    /// `count` pieces of length `block`, the first at `base` and each `stride` after the one before it.
    pub fn stride(base: u64, block: u32, stride: u32, count: u32) -> Pieces
        requires count { (1 ≤ count) × (count ≤ 16) }
        requires base { base < 2 ^ 33 }
        ensures spans { result.spans ≡ stride_spans base block stride count }
        ensures below_block { result.below_block ≡ nat_lt stride block }
        ensures vector { (script : Script) (target : ℕ) (at : Addr) → address script target at ≡ base → IsSideOf script target (Stride at block stride count) result }
    {
        let mut spans = Spans::new();
        for i in 0..count {
            spans.push(Span {
                at: base + i as u64 * stride as u64,
                len: block,
            });
        }
        Pieces {
            spans,
            below_block: stride < block,
        }
    }

    pub fn spans(&self) -> &[Span]
        ensures items { result.now ≡ self.now.spans }
        ensures bounded { length self.now.spans ≤ 16 }
    {
        self.spans.as_slice()
    }

    /// The bytes of all pieces together; a byte counts for each piece that has it.
    pub fn total(&self) -> u64
        ensures { result ≡ total_of self.now.spans }
    {
        let mut total = 0;
        for span in self.spans() {
            total += span.len as u64;
        }
        total
    }

    /// Whether each piece lies within a memory of this size. One of length 0 may stand at its very end.
    pub fn within(&self, size: u32) -> bool
        ensures { IsTrue result ↔ AreWithin self.now.spans size }
    {
        let size = size as u64;
        self.spans().iter().all(|span| span.at <= size && span.len as u64 <= size - span.at)
    }

    /// Whether bytes can go between these two sides, piece by piece.
    #[tactic(auto, unfolding(lapi_base::specs::Record::Refusals::first_reason))]
    pub fn check(tgt: &Pieces, org: &Pieces) -> Result<(), Refusal>
        ensures sides { result_err result ≡ side_why tgt.now org.now }
        ensures vectors { (script : Script) (target : ℕ) (to from : Vector) → IsSideOf script target to tgt.now → IsSideOf script target from org.now → result_err result ≡ why to from }
    {
        let (to, from) = (tgt.spans(), org.spans());
        if to.len() != from.len() {
            return Err(Refusal::VecCount);
        }
        if lengths_differ(to, from) {
            return Err(Refusal::VecLength);
        }
        if tgt.below_block || org.below_block {
            return Err(Refusal::StrideBelowBlock);
        }
        Ok(())
    }

    /// The bytes of all pieces, in order.
    pub fn gather(&self, alloc: Global, memory: &TaskMemory) -> Result<Bytes, Memory>
        requires { AreWithin self.now.spans (length memory.now) }
        ensures pieces { IfOk result (λ bytes. bytes ≡ flat_map (λ p. bytes_at memory.now p.at p.len) self.now.spans) }
        ensures source { (memories : Memories) (t : ℕ) → IsMemoryOf memories t memory.now → IfOk result (λ bytes. bytes ≡ gathered memories t self.now.spans) }
    {
        let mut bytes = Vec::with_capacity(alloc, self.total() as usize)?;
        for span in self.spans() {
            bytes.extend_from_slice(memory.read(span))?;
        }
        Ok(Bytes::from(bytes))
    }

    /// Writes the bytes into the pieces, in order: where pieces overlap, the last one counts.
    pub fn scatter(&self, memory: &mut TaskMemory, bytes: &[u8])
        requires within { AreWithin self.now.spans (length memory.old) }
        requires total { length bytes.now ≡ total_of self.now.spans }
        ensures writes { memory.new ≡ fold (λ m w. written m w.0 w.1) memory.old (scattered self.now.spans bytes.now) }
        ensures byte { (x : ℕ) → slice_index memory.new x ≡ byte_after (scattered self.now.spans bytes.now) x (slice_index memory.old x) }
        ensures size { length memory.new ≡ length memory.old }
    {
        let mut rest = bytes;
        for span in self.spans() {
            prove!(memory.size() <= 65_536);
            let (piece, after) = rest.split_at(span.len as usize);
            memory.write(span.at as u32, piece);
            rest = after;
        }
    }
}

// Whether two pieces in the same place have different lengths.
fn lengths_differ(to: &[Span], from: &[Span]) -> bool
    ensures { result ≡ list_any (λ pq. not (pq.0.len == pq.1.len)) (zip to.now from.now) }
{
    to.iter().zip(from).any(|(to, from)| to.len != from.len)
}
