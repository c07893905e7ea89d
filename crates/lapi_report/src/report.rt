ghost use Rattle.std.specs.Prelude.{◌≡◌, ◌≤◌, ◌+◌, ◌++◌, false, length, IfErr};
ghost use Rattle.std.specs.List.{flat_map};
ghost use Rattle.lapi_base.specs.Record.Operations.{numbers_below};
ghost use Rattle.lapi_base.specs.Output.ReportText.{totals_text, task_text, quiet_line, report_text};
ghost use Rattle.lapi_base.specs.Record.WorldView.{view_record};
ghost use Rattle.lapi_io.specs.Writes.{Writes};

use crate::task::write_task;
use crate::text_line::TextLine;
use lapi_base::WriteFault;
use lapi_io::{Failed, Sink};
use lapi_world::World;

/// Writes how far the lines taken have come, what became of each task, and whether all is quiet.
/// It takes no memory.
pub fn write_report<K: Sink>(world: &World, sink: &mut K) -> Result<(), WriteFault>
    requires { world.now.spent ≡ false }
    ensures written { Writes K.held K.faults K.room sink.old sink.new
        (report_text world.now.script world.now.rules (view_record world.now) (length world.now.taken)) result }
    ensures only_failed { IfErr result (λ fault. fault ≡ WriteFault.Failed) }
{
    write_parts(world, sink)?;
    Ok(())
}

#[tactic(auto, unfolding(lapi_base::specs::Output::ReportText::report_text))]
fn write_parts<K: Sink>(world: &World, sink: &mut K) -> Result<(), Failed>
    requires { world.now.spent ≡ false }
    ensures { Writes K.held K.faults K.room sink.old sink.new
        (report_text world.now.script world.now.rules (view_record world.now) (length world.now.taken)) result }
{
    let mut line = TextLine::new();
    write_totals(world, &mut line, sink)?;
    write_tasks(world, &mut line, sink)?;
    write_quiet(world.quiet(), &mut line, sink)
}

fn write_totals<K: Sink>(world: &World, line: &mut TextLine, sink: &mut K) -> Result<(), Failed>
    requires { world.now.spent ≡ false }
    ensures { Writes K.held K.faults K.room sink.old sink.new
        (totals_text (length world.now.taken) (length (view_record world.now).journal)) result }
{
    line.begin("lines ");
    line.number(world.taken().len() as u64);
    line.text("\nevents ");
    line.number(world.journal().len() as u64);
    line.text("\n");
    line.write(sink)
}

fn write_tasks<K: Sink>(world: &World, line: &mut TextLine, sink: &mut K) -> Result<(), Failed>
    requires { world.now.spent ≡ false }
    ensures { Writes K.held K.faults K.room sink.old sink.new
        (flat_map (task_text world.now.script world.now.rules (view_record world.now))
        (numbers_below world.now.script.tasks)) result }
{
    for t in 0..world.script().tasks {
        write_task(world, t, line, sink)?;
    }
    Ok(())
}

fn write_quiet<K: Sink>(quiet: bool, line: &mut TextLine, sink: &mut K) -> Result<(), Failed>
    ensures { Writes K.held K.faults K.room sink.old sink.new (quiet_line quiet) result }
{
    line.begin("");
    add_quiet(quiet, line);
    line.write(sink)
}

pub(crate) fn add_quiet(quiet: bool, line: &mut TextLine)
    requires { length line.old + 10 ≤ 4096 }
    ensures { line.new ≡ line.old ++ quiet_line quiet }
{
    line.text("quiet ");
    line.text(if quiet { "yes" } else { "no" });
    line.text("\n");
}
