//! The lines taken, as threads took them.

ghost use Rattle.std.specs.Prelude.{◌≡◌, slice_get, IfErr};
ghost use Rattle.lapi_base.specs.Output.LiveText.{took_line, told_line, took_text};
ghost use Rattle.lapi_io.specs.Writes.{Writes};

use crate::act::add_act;
use crate::text_line::TextLine;
use lapi_base::{Line, WriteFault};
use lapi_io::{Failed, Sink};
use lapi_world::World;

/// Writes each line taken, as it is written in a schedule, in the order in which they were taken. It takes no memory.
pub fn write_taken<K: Sink>(world: &World, sink: &mut K) -> Result<(), WriteFault>
    ensures written { Writes K.held K.faults K.room sink.old sink.new
        (took_text world.now.schedule world.now.taken) result }
    ensures only_failed { IfErr result (λ fault. fault ≡ WriteFault.Failed) }
{
    write_lines(world.schedule(), world.taken(), sink)?;
    Ok(())
}

#[tactic(auto, unfolding(lapi_base::specs::Output::LiveText::took_text))]
fn write_lines<K: Sink>(schedule: &[Line], taken: &[u32], sink: &mut K) -> Result<(), Failed>
    ensures { Writes K.held K.faults K.room sink.old sink.new (took_text schedule.now taken.now) result }
{
    let mut text = TextLine::new();
    for n in taken {
        write_told(schedule, *n, &mut text, sink)?;
    }
    Ok(())
}

/// Line `n` of the schedule.
fn write_told<K: Sink>(
    schedule: &[Line],
    n: u32,
    text: &mut TextLine,
    sink: &mut K,
) -> Result<(), Failed>
    ensures { Writes K.held K.faults K.room sink.old sink.new (told_line (slice_get schedule.now n)) result }
{
    match schedule.get(n as usize) {
        Some(line) => write_took(line, text, sink),
        None => Ok(()),
    }
}

fn write_took<K: Sink>(line: &Line, text: &mut TextLine, sink: &mut K) -> Result<(), Failed>
    ensures { Writes K.held K.faults K.room sink.old sink.new (took_line line.now) result }
{
    text.begin("took ");
    text.number(u64::from(line.lane));
    text.text(" ");
    add_act(&line.act, text, sink)?;
    text.text("\n");
    text.write(sink)
}
