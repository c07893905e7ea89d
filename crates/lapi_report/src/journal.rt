ghost use Rattle.std.specs.Prelude.{◌≡◌, false, IfErr};
ghost use Rattle.std.specs.List.{flat_map};
ghost use Rattle.lapi_base.specs.Output.JournalText.{event_line, journal_text};
ghost use Rattle.lapi_base.specs.Record.WorldView.{view_record};
ghost use Rattle.lapi_io.specs.Writes.{Writes};

use crate::event::event_line;
use crate::text_line::TextLine;
use lapi_base::{Event, WriteFault};
use lapi_io::{Failed, Sink};
use lapi_world::World;

/// Writes a line for each event so far, in order. It takes no memory.
#[tactic(auto, unfolding(lapi_base::specs::Output::JournalText::journal_text))]
pub fn write_journal<K: Sink>(world: &World, sink: &mut K) -> Result<(), WriteFault>
    requires { world.now.spent ≡ false }
    ensures written { Writes K.held K.faults K.room sink.old sink.new (journal_text (view_record world.now)) result }
    ensures only_failed { IfErr result (λ fault. fault ≡ WriteFault.Failed) }
{
    write_events(world.journal(), sink)?;
    Ok(())
}

pub(crate) fn write_events<K: Sink>(events: &[Event], sink: &mut K) -> Result<(), Failed>
    ensures { Writes K.held K.faults K.room sink.old sink.new (flat_map event_line events.now) result }
{
    let mut line = TextLine::new();
    for event in events {
        event_line(*event, &mut line);
        line.write(sink)?;
    }
    Ok(())
}
