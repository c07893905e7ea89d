ghost use Rattle.std.specs.Prelude.{◌≡◌, ℕ, ◌+◌, ◌≤◌, ◌↔◌, IsTrue, IfOk, [], ◌∷◌, length, slice_index, replicate};
ghost use Rattle.std.specs.Int.{w32, to_be_bytes, from_be_bytes};
ghost use Rattle.lapi_base.specs.Record.Handlers.{number_of, word_bytes};
ghost use Rattle.lapi_base.specs.Record.Values.{Memories, gathered, byte_after};
ghost use Rattle.lapi_memory.specs.TaskMemory.{bytes_at, written, IsWithin, IsMemoryOf};

use lapi_base::{Memory, Span};
use std::alloc::Global;
use std::marker::Model;

/// The bytes of a task. A word is the number that four bytes spell, the highest first.
#[derive(Debug, Drop)]
pub struct TaskMemory {
    bytes: Vec<u8>,
}

impl Model for TaskMemory {
    ghost use Rattle.std.specs.Prelude.{List, ℕ, length, ◌≤◌};

    ghost Value = { List ℕ };

    ghost view = { λ memory. memory.bytes.items };

    ghost invariant = { λ memory. length memory.bytes.items ≤ 65536 };
}

impl TaskMemory {
    /// So many bytes, all 0.
    pub fn new(alloc: Global, size: u32) -> Result<TaskMemory, Memory>
        requires { size ≤ 65536 }
        ensures { IfOk result (λ made. made ≡ replicate size 0) }
    {
        let bytes = vec![in alloc; 0; size as usize]?;
        Ok(TaskMemory { bytes })
    }

    /// The number of bytes.
    pub fn size(&self) -> u32
        ensures count { result ≡ length self.now }
        ensures bounded { result ≤ 65536 }
    {
        self.bytes.len() as u32
    }

    /// Whether all bytes of the span lie within the memory. One of length 0 may stand at its very end.
    pub fn fits(&self, span: &Span) -> bool
        ensures { IsTrue result ↔ IsWithin self.now span.now.at span.now.len }
    {
        let size = self.size() as u64;
        span.at <= size && span.len as u64 <= size - span.at
    }

    /// The bytes of the span.
    pub fn read(&self, span: &Span) -> &[u8]
        requires { IsWithin self.now span.now.at span.now.len }
        ensures bytes { result.now ≡ bytes_at self.now span.now.at span.now.len }
        ensures source { (memories : Memories) (t : ℕ) → IsMemoryOf memories t self.now → result.now ≡ gathered memories t (span.now ∷ []) }
    {
        let (_, rest) = self.bytes.as_slice().split_at(span.at as usize);
        let (bytes, _) = rest.split_at(span.len as usize);
        bytes
    }

    /// Writes the bytes from `at` on.
    pub fn write(&mut self, at: u32, bytes: &[u8])
        requires { IsWithin self.old at (length bytes.now) }
        ensures all { self.new ≡ written self.old at bytes.now }
        ensures byte { (x : ℕ) → slice_index self.new x ≡ byte_after ((at, bytes.now) ∷ []) x (slice_index self.old x) }
        ensures size { length self.new ≡ length self.old }
    {
        overwrite(&mut self.bytes, at as usize, bytes);
    }

    /// The word at `at`, which may be any place.
    pub fn word(&self, at: u32) -> u32
        requires { IsWithin self.now at 4 }
        ensures word { result ≡ number_of (bytes_at self.now at 4) }
        ensures highest_first { result ≡ from_be_bytes w32 (bytes_at self.now at 4) }
        ensures source { (memories : Memories) (t : ℕ) → IsMemoryOf memories t self.now → result ≡ number_of (gathered memories t (record { at = at; len = 4 } ∷ [])) }
    {
        let bytes = self.read(&Span {
            at: at as u64,
            len: 4,
        });
        u32::from_be_bytes([bytes[0], bytes[1], bytes[2], bytes[3]])
    }

    /// Writes a word from `at` on, which may be any place.
    #[tactic(auto, unfolding(lapi_base::specs::Record::Handlers::word_bytes))]
    pub fn set_word(&mut self, at: u32, value: u32)
        requires { IsWithin self.old at 4 }
        ensures word { self.new ≡ written self.old at (word_bytes value) }
        ensures highest_first { self.new ≡ written self.old at (to_be_bytes w32 value) }
        ensures byte { (x : ℕ) → slice_index self.new x ≡ byte_after ((at, word_bytes value) ∷ []) x (slice_index self.old x) }
        ensures size { length self.new ≡ length self.old }
    {
        self.write(at, &value.to_be_bytes());
    }
}

// Puts the new bytes from `at` on in place of as many old ones.
fn overwrite(bytes: &mut [u8], at: usize, new: &[u8])
    requires { IsWithin bytes.old at (length new.now) }
    ensures { bytes.new ≡ written bytes.old at new.now }
{
    bytes[at..at + new.len()].copy_from_slice(new);
}
