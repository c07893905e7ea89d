//! What is told of a capture.

ghost use Rattle.std.specs.Prelude.{◌≡◌, ◌≤◌, length, IfErr};
ghost use Rattle.std.specs.List.{flat_map};
ghost use Rattle.lapi_base.specs.Output.LandingsText.{landing_counts};
ghost use Rattle.lapi_capture.specs.Texts.{fault_text, flaw_name, flaw_number, landings_text, line_of};
ghost use Rattle.lapi_io.specs.Writes.{Writes};

use crate::parts::add_message;
use crate::text_line::TextLine;
use lapi_base::WriteFault;
use lapi_capture::{FeedFault, Flaw, Landing};
use lapi_io::{Failed, Sink};

/// Writes a line for each landing, and how many frames and landings there are. It takes no memory.
pub fn write_landings<K: Sink>(
    frames: u32,
    landings: &[Landing],
    sink: &mut K,
) -> Result<(), WriteFault>
    ensures written { Writes K.held K.faults K.room sink.old sink.new (landings_text frames landings.now) result }
    ensures only_failed { IfErr result (λ fault. fault ≡ WriteFault.Failed) }
{
    write_parts(frames, landings, sink)?;
    Ok(())
}

/// Writes what stopped a reader; nothing, where that was a want of memory. It takes no memory.
pub fn write_feed_fault<K: Sink>(fault: FeedFault, sink: &mut K) -> Result<(), WriteFault>
    ensures written { Writes K.held K.faults K.room sink.old sink.new (fault_text fault) result }
    ensures only_failed { IfErr result (λ fault. fault ≡ WriteFault.Failed) }
{
    let mut line = TextLine::new();
    fill_fault(fault, &mut line);
    line.write(sink)?;
    Ok(())
}

#[tactic(auto, unfolding(lapi_capture::specs::Texts::landings_text))]
fn write_parts<K: Sink>(frames: u32, landings: &[Landing], sink: &mut K) -> Result<(), Failed>
    ensures { Writes K.held K.faults K.room sink.old sink.new (landings_text frames landings.now) result }
{
    let mut line = TextLine::new();
    write_lines(landings, &mut line, sink)?;
    write_counts(frames, landings.len(), &mut line, sink)
}

fn write_lines<K: Sink>(
    landings: &[Landing],
    line: &mut TextLine,
    sink: &mut K,
) -> Result<(), Failed>
    ensures { Writes K.held K.faults K.room sink.old sink.new (flat_map line_of landings.now) result }
{
    for landing in landings {
        fill_landing(*landing, line);
        line.write(sink)?;
    }
    Ok(())
}

fn fill_landing(landing: Landing, line: &mut TextLine)
    ensures { line.new ≡ line_of landing }
{
    line.begin("land ");
    add_message(landing.name, line);
    line.text(" at ");
    line.number(u64::from(landing.to));
    line.text(" frame ");
    line.number(u64::from(landing.frame));
    line.text("\n");
}

fn write_counts<K: Sink>(
    frames: u32,
    landings: usize,
    line: &mut TextLine,
    sink: &mut K,
) -> Result<(), Failed>
    ensures { Writes K.held K.faults K.room sink.old sink.new (landing_counts frames landings) result }
{
    line.begin("frames ");
    line.number(u64::from(frames));
    line.text(" landings ");
    line.number(landings as u64);
    line.text("\n");
    line.write(sink)
}

fn fill_fault(fault: FeedFault, line: &mut TextLine)
    ensures { line.new ≡ fault_text fault }
{
    match fault {
        FeedFault::Bad { place, flaw } => {
            line.begin("bad ");
            line.number(place);
            line.text(" ");
            line.number(flaw_number(flaw));
            line.text(" ");
            line.text(flaw_name(flaw));
            line.text("\n");
        }
        FeedFault::Limit { place } => {
            line.begin("limit frames ");
            line.number(place);
            line.text("\n");
        }
        FeedFault::Memory => line.begin(""),
    }
}

fn flaw_number(flaw: Flaw) -> u64
    ensures { result ≡ flaw_number flaw }
{
    match flaw {
        Flaw::Magic => 1,
        Flaw::Task => 2,
        Flaw::Size => 3,
        Flaw::Early => 4,
        Flaw::After => 5,
        Flaw::Clash => 6,
    }
}

fn flaw_name(flaw: Flaw) -> &'static str
    ensures name { result.now ≡ flaw_name flaw }
    ensures short { length result.now ≤ 5 }
{
    match flaw {
        Flaw::Magic => "Magic",
        Flaw::Task => "Task",
        Flaw::Size => "Size",
        Flaw::Early => "Early",
        Flaw::After => "After",
        Flaw::Clash => "Clash",
    }
}
