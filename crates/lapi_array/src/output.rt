//! What a plan's tasks hold after a run, and the text of it.

ghost use Rattle.std.specs.Prelude.{◌≡◌, ◌≤◌, Err};
ghost use Rattle.lapi_base.specs.declared.status.WriteFault.TheVariants as fault;
ghost use Rattle.lapi_io.specs.Causes.{Rose};
ghost use Rattle.lapi_io.specs.Writes.{Wrote};
ghost use Rattle.lapi_blocks.specs.Plans.{ValidPlan};
ghost use Rattle.lapi_array.specs.ArrayText.{AreLeft, RunsAreLeft, array_text};

use crate::writing::array_text;
use lapi_base::{Bytes, WriteFault};
use lapi_blocks::Plan;
use lapi_io::{Failed, Sink, write_all};
use std::alloc::Global;

/// The memories after any run of a plan's script, by which every task is past its last statement, are such as
/// [`write_array`] and [`array_text`] take: so their text is that of the plain array.
pub fn runs_are_left()
    ensures { RunsAreLeft }
{}

/// Writes the text of a plan that was run, by the memory of each task as the run left it: a line for each get, in order,
/// and then one for each row of the array. It makes the text first, so a want of memory writes nothing.
pub fn write_array<K: Sink>(
    alloc: Global,
    plan: &Plan,
    memories: &[Bytes],
    sink: &mut K,
) -> Result<(), WriteFault>
    requires plan { ValidPlan plan.now }
    requires memories { AreLeft plan.now memories.now }
    ensures text { Wrote (K.held sink.old) (K.held sink.new) (array_text plan.now) result }
    ensures failed { result ≡ Err fault.Failed → Rose (K.faults sink.old) (K.faults sink.new) }
    ensures later { K.faults sink.old ≤ K.faults sink.new }
    ensures memory { result ≡ Err fault.Memory → sink.new ≡ sink.old }
    ensures room { K.room sink.new ≡ K.room sink.old }
{
    let Ok(text) = array_text(alloc, plan, memories) else {
        return Err(WriteFault::Memory);
    };
    if let Err(Failed) = write_all(sink, text.as_slice()) {
        return Err(WriteFault::Failed);
    }
    Ok(())
}
