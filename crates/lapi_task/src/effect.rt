//! What a job finds in its task's memory as it begins, and what it writes there as it ends.
ghost use Rattle.std.specs.Prelude.{◌≡◌, Some, IfOk, OnOk};
ghost use Rattle.lapi_base.specs.declared.span.Span.{Span as TheSpan};
ghost use Rattle.lapi_base.specs.Record.Handlers.{written};
ghost use Rattle.lapi_memory.specs.TaskMemory.{IsWithin};
ghost use Rattle.lapi_task.specs.Effects.{bytes_held, written_within, all_written};

use lapi_base::{Bytes, Effect, Memory, Span};
use lapi_memory::TaskMemory;
use std::alloc::Global;

/// A copy of the bytes in a buffer; no bytes where there is none.
pub fn held(alloc: Global, memory: &TaskMemory, buffer: Option<Span>) -> Result<Bytes, Memory>
    requires { (span : TheSpan) → buffer ≡ Some span → IsWithin memory.now span.at span.len }
    ensures { IfOk result (λ bytes. bytes ≡ bytes_held memory.now buffer) }
{
    match buffer {
        Some(span) => Bytes::from_slice(alloc, memory.read(&span)),
        None => Ok(Bytes::new(alloc)),
    }
}

/// Writes what the effect of a completion handler with this buffer has for its task, where it lies within the memory.
#[tactic(auto, unfolding(lapi_base::specs::Record::Handlers::word_bytes))]
pub fn take_effect(
    alloc: Global,
    memory: &mut TaskMemory,
    effect: Effect,
    buffer: &Bytes,
) -> Result<(), Memory>
    ensures { OnOk result (memory.new ≡ all_written memory.old (written effect buffer.now)) }
{
    match effect {
        Effect::Word { at, value } => write_within(memory, at, &value.to_be_bytes()),
        Effect::Same { at } => write_within(memory, at, buffer.as_slice()),
        Effect::Reversed { at } => {
            let mut bytes = Vec::from_slice(alloc, buffer.as_slice())?;
            bytes.reverse();
            write_within(memory, at, bytes.as_slice());
        }
        Effect::Nothing | Effect::Answer { .. } => {}
    }
    Ok(())
}

/// Writes the bytes from `at` on, where they lie within the memory.
fn write_within(memory: &mut TaskMemory, at: u32, bytes: &[u8])
    ensures { memory.new ≡ written_within memory.old at bytes.now }
{
    let size = memory.size() as usize;
    if bytes.len() <= size && at as usize <= size - bytes.len() {
        memory.write(at, bytes);
    }
}
