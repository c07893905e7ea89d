//! What is written of the input that a number generates.

ghost use Rattle.std.specs.Prelude.{◌≡◌, false, length};
ghost use Rattle.lapi_base.specs.Output.CommandAnswers.{generated_answer, summary_answer};
ghost use Rattle.lapi_base.specs.Output.SummaryText.{summary_text};
ghost use Rattle.lapi_base.specs.Packet.Spelling.{spells_packet};
ghost use Rattle.lapi_base.specs.Record.Valid.{ValidScript, ValidSchedule};
ghost use Rattle.lapi_base.specs.Record.WorldView.{view_record};
ghost use Rattle.lapi_gen.specs.Inputs.{generated_input};
ghost use Rattle.lapi_handlers.specs.Handlers.{rules_of};
ghost use Rattle.lapi_report.specs.SinkWrites.{WritesWithMemory};

use crate::performed::performed;
use lapi_base::{Input, WriteFault};
use lapi_gen::generate;
use lapi_handlers::Handlers;
use lapi_io::{Sink, write_all};
use lapi_parts::lines_are_taken;
use lapi_report::write_summary;
use lapi_script::write_input;
use lapi_world::World;
use std::alloc::Global;

/// Writes its canonical text.
#[tactic(auto, using(crate::proofs::Unwritten::nothing_written))]
pub fn write_generated<K: Sink>(alloc: Global, number: u32, sink: &mut K) -> Result<(), WriteFault>
    ensures { WritesWithMemory K.held K.faults K.room sink.old sink.new
        (generated_answer (generated_input number)).text result }
{
    let input = generate(alloc, number)?;
    let text = write_input(alloc, &input.script, input.schedule.as_slice())?;
    write_all(sink, text.as_slice())?;
    Ok(())
}

/// Performs all its lines with these handlers, and writes a summary of their record.
#[tactic(auto, using(crate::proofs::Unwritten::nothing_written))]
pub fn write_sum<K: Sink>(
    alloc: Global,
    number: u32,
    sink: &mut K,
    handlers: &Handlers,
) -> Result<(), WriteFault>
    ensures { WritesWithMemory K.held K.faults K.room sink.old sink.new
        (summary_answer number (rules_of handlers.now) (generated_input number)).text result }
{
    let input = generate(alloc, number)?;
    write_performed(alloc, number, input, sink, handlers)
}

/// Performs all lines of an input, and writes a summary of their record with this number.
fn write_performed<K: Sink>(
    alloc: Global,
    number: u32,
    input: Input,
    sink: &mut K,
    handlers: &Handlers,
) -> Result<(), WriteFault>
    requires script { ValidScript input.script }
    requires schedule { ValidSchedule input.script spells_packet input.schedule }
    ensures { WritesWithMemory K.held K.faults K.room sink.old sink.new
        (summary_answer number (rules_of handlers.now) input).text result }
{
    lines_are_taken();
    let world = performed(alloc, input, handlers)?;
    write_taken(number, &world, sink)
}

/// Writes a summary of a world with this number.
fn write_taken<K: Sink>(number: u32, world: &World, sink: &mut K) -> Result<(), WriteFault>
    requires { world.now.spent ≡ false }
    ensures { WritesWithMemory K.held K.faults K.room sink.old sink.new
        (summary_text world.now.script world.now.rules (view_record world.now)
        number (length world.now.taken)) result }
{
    write_summary(number, world, sink)
}
