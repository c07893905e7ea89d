//! What is written of lanes that ran on threads, and of lanes that clash.

ghost use Rattle.std.specs.Prelude.{◌≡◌, false};
ghost use Rattle.lapi_base.specs.Output.CommandAnswers.{clash_answer};
ghost use Rattle.lapi_report.specs.SinkWrites.{WritesWithMemory};
ghost use Rattle.lapi_tool.specs.Live.{live_world_text};

use crate::text::write_text;
use lapi_base::WriteFault;
use lapi_io::Sink;
use lapi_report::{write_report, write_taken};
use lapi_world::World;
use std::alloc::Global;

/// Writes the lines that a world took, and then its report.
pub fn write_live<K: Sink>(world: &World, sink: &mut K) -> Result<(), WriteFault>
    requires { world.now.spent ≡ false }
    ensures { WritesWithMemory K.held K.faults K.room sink.old sink.new (live_world_text world.now) result }
{
    write_taken(world, sink)?;
    write_report(world, sink)
}

/// Writes the worker whose lines stand in two lanes.
#[tactic(auto, using(crate::proofs::Unwritten::nothing_written))]
pub fn write_clash<K: Sink>(
    alloc: Global,
    task: u32,
    worker: u32,
    sink: &mut K,
) -> Result<(), WriteFault>
    ensures { WritesWithMemory K.held K.faults K.room sink.old sink.new (clash_answer task worker).text result }
{
    let Ok(text) = format!(in alloc; "laneclash {task} {worker}\n") else {
        return Err(WriteFault::Memory);
    };
    write_text(text.as_str(), sink)
}
