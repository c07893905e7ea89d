ghost use Rattle.std.specs.Prelude.{◌≡◌, false};
ghost use Rattle.lapi_base.specs.Output.CommandAnswers.{view_text};
ghost use Rattle.lapi_base.specs.Packet.Spelling.{spells_packet};
ghost use Rattle.lapi_base.specs.Record.Valid.{ValidScript, ValidSchedule};
ghost use Rattle.lapi_handlers.specs.Handlers.{rules_of};
ghost use Rattle.lapi_report.specs.SinkWrites.{WritesWithMemory};
ghost use Rattle.lapi_tool.specs.Shown.{asked_text, world_text};

use crate::counts::write_counts;
use crate::performed::performed;
use lapi_base::{Input, View, WriteFault};
use lapi_handlers::Handlers;
use lapi_io::Sink;
use lapi_parts::lines_are_taken;
use lapi_report::{write_capture, write_journal, write_report, write_trace, write_wire};
use lapi_world::World;
use std::alloc::Global;

/// Writes what is asked of an input: its counts, where that is no view of its record.
pub fn write_view<K: Sink>(
    alloc: Global,
    view: Option<View>,
    input: Input,
    sink: &mut K,
    handlers: &Handlers,
) -> Result<(), WriteFault>
    requires script { ValidScript input.script }
    requires schedule { ValidSchedule input.script spells_packet input.schedule }
    ensures { WritesWithMemory K.held K.faults K.room sink.old sink.new (asked_text view
        (rules_of handlers.now) input) result }
{
    match view {
        Some(view) => write_performed(alloc, view, input, sink, handlers),
        None => write_counts(alloc, &input, sink),
    }
}

/// Writes what is asked of the record of all lines of an input.
fn write_performed<K: Sink>(
    alloc: Global,
    view: View,
    input: Input,
    sink: &mut K,
    handlers: &Handlers,
) -> Result<(), WriteFault>
    requires script { ValidScript input.script }
    requires schedule { ValidSchedule input.script spells_packet input.schedule }
    ensures { WritesWithMemory K.held K.faults K.room sink.old sink.new (view_text view
        (rules_of handlers.now) input) result }
{
    lines_are_taken();
    let world = performed(alloc, input, handlers)?;
    write_world(view, &world, sink)
}

/// Writes what is asked of a world.
fn write_world<K: Sink>(view: View, world: &World, sink: &mut K) -> Result<(), WriteFault>
    requires { world.now.spent ≡ false }
    ensures { WritesWithMemory K.held K.faults K.room sink.old sink.new (world_text view world.now) result }
{
    match view {
        View::Report => write_report(world, sink),
        View::Journal => write_journal(world, sink),
        View::Wires => write_wire(world, sink),
        View::Trace => write_trace(world, sink),
        View::Capture => write_capture(world, sink),
    }
}
