ghost use Rattle.std.specs.Prelude.{◌≡◌, ◌<◌, ◌^◌, false, length, IfErr};
ghost use Rattle.lapi_base.specs.Output.SummaryText as spec;
ghost use Rattle.lapi_base.specs.Output.SummaryText.{entries_of, summary_text};
ghost use Rattle.lapi_base.specs.Record.WorldView.{view_record};
ghost use Rattle.lapi_io.specs.Writes.{Writes};

use crate::report::add_quiet;
use crate::text_line::TextLine;
use lapi_base::{Event, WriteFault};
use lapi_io::Sink;
use lapi_world::World;

/// Writes one line: how many lines were taken, how many events, entries and landings there are, and whether all is
/// quiet. It takes no memory.
pub fn write_summary<K: Sink>(number: u32, world: &World, sink: &mut K) -> Result<(), WriteFault>
    requires { world.now.spent ≡ false }
    ensures written { Writes K.held K.faults K.room sink.old sink.new
        (summary_text world.now.script world.now.rules (view_record world.now)
        number (length world.now.taken)) result }
    ensures only_failed { IfErr result (λ fault. fault ≡ WriteFault.Failed) }
{
    let mut line = TextLine::new();
    begin_summary(number, world, &mut line);
    line.write(sink)?;
    Ok(())
}

/// Leaves the whole line in `line`.
#[tactic(auto, unfolding(lapi_base::specs::Output::SummaryText::summary_text))]
fn begin_summary(number: u32, world: &World, line: &mut TextLine)
    requires { world.now.spent ≡ false }
    ensures { line.new ≡ summary_text world.now.script world.now.rules (view_record world.now)
        number (length world.now.taken) }
{
    line.begin("summary ");
    line.number(u64::from(number));
    line.text(" lines ");
    line.number(world.taken().len() as u64);
    line.text(" events ");
    line.number(world.journal().len() as u64);
    line.text(" entries ");
    line.wide_number(entries(world));
    line.text(" landed ");
    line.number(landings(world) as u64);
    line.text(" ");
    add_quiet(world.quiet(), line);
}

/// How many entries all wires have.
#[tactic(auto, using(crate::proofs::Counts::sum_none, crate::proofs::Counts::sum_next))]
fn entries(world: &World) -> u128
    requires { world.now.spent ≡ false }
    ensures { result ≡ entries_of world.now.script (view_record world.now) }
{
    let mut count = 0;
    for a in 0..world.script().tasks {
        count += entries_from(world, a);
    }
    count
}

/// How many entries the wires from task `a` have.
#[tactic(auto, using(crate::proofs::Counts::sum_none, crate::proofs::Counts::sum_next))]
fn entries_from(world: &World, a: u32) -> u128
    requires spent { world.now.spent ≡ false }
    requires task { a < world.now.script.tasks }
    ensures count { result ≡ spec.entries_from world.now.script (view_record world.now) a }
    ensures few { result < 2 ^ 96 }
{
    let mut count = 0;
    for b in 0..world.script().tasks {
        count += world.wire(a, b).len() as u128;
    }
    count
}

/// How many messages landed.
#[tactic(auto, using(crate::proofs::Counts::landings_turned))]
fn landings(world: &World) -> usize
    requires { world.now.spent ≡ false }
    ensures { result ≡ spec.landings_of (view_record world.now).journal }
{
    landings_in(world.journal())
}

fn landings_in(journal: &[Event]) -> usize
    ensures { result ≡ spec.landings_of journal.now }
{
    journal.iter().filter(|event| is_landing(event)).count()
}

fn is_landing(event: &Event) -> bool
    ensures { result ≡ spec.is_landing event.now }
{
    match event {
        Event::Land(_) => true,
        Event::Issue { .. }
        | Event::Refuse { .. }
        | Event::Enter { .. }
        | Event::Pass { .. }
        | Event::Copy(_)
        | Event::Head(_)
        | Event::Begin { .. }
        | Event::End { .. } => false,
    }
}
