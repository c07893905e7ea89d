//! What a report says of one task.

ghost use Rattle.std.specs.Prelude.{◌≡◌, ◌<◌, ◌≤◌, ◌+◌, ◌++◌, false, length, codes};
ghost use Rattle.std.specs.Fmt.{decimal};
ghost use Rattle.lapi_base.specs.Record.Counters.{reads};
ghost use Rattle.lapi_base.specs.Record.Jobs.{queue, busy};
ghost use Rattle.lapi_base.specs.Record.Operations.{statements};
ghost use Rattle.lapi_base.specs.Record.Refusals.{next, refusals};
ghost use Rattle.lapi_base.specs.Output.ReportText.{task_line, statements_text, counter_text, counters_text, task_text};
ghost use Rattle.lapi_base.specs.Record.WorldView.{view_record};
ghost use Rattle.lapi_io.specs.Writes.{Writes};
ghost use Rattle.lapi_report.specs.OfStatements.{refused_text, read_text};

use crate::memory::write_memory;
use crate::parts::add_refusal;
use crate::rising::take_at;
use crate::text_line::TextLine;
use lapi_base::{Refusal, Script, Span};
use lapi_io::{Failed, Sink};
use lapi_memory::TaskMemory;
use lapi_parts::statements_rise;
use lapi_world::World;

#[tactic(auto, unfolding(lapi_base::specs::Output::ReportText::task_text))]
pub(crate) fn write_task<K: Sink>(
    world: &World,
    t: u32,
    line: &mut TextLine,
    sink: &mut K,
) -> Result<(), Failed>
    requires spent { world.now.spent ≡ false }
    requires task { t < world.now.script.tasks }
    ensures { Writes K.held K.faults K.room sink.old sink.new
        (task_text world.now.script world.now.rules (view_record world.now) t) result }
{
    write_standing(world, t, line, sink)?;
    write_statements(world, t, line, sink)?;
    write_counters(world, t, line, sink)?;
    write_memory(t, bytes_of(world.task(t).memory()), line, sink)
}

fn bytes_of(memory: &TaskMemory) -> &[u8]
    ensures { result.now ≡ memory.now }
{
    memory.read(&Span {
        at: 0,
        len: memory.size(),
    })
}

/// How many statements the task has.
fn statement_count(script: &Script, t: u32) -> usize
    ensures { result ≡ length (statements script.now t) }
{
    match script.lists.as_slice().get(t as usize) {
        Some(list) => list.as_slice().len(),
        None => 0,
    }
}

fn write_standing<K: Sink>(
    world: &World,
    t: u32,
    line: &mut TextLine,
    sink: &mut K,
) -> Result<(), Failed>
    requires spent { world.now.spent ≡ false }
    requires task { t < world.now.script.tasks }
    ensures { let J = (view_record world.now).journal in
        Writes K.held K.faults K.room sink.old sink.new
        (task_line t (next J t) (length (statements world.now.script t))
        (length (queue world.now.script world.now.rules J t)) (length (busy world.now.script J t))) result }
{
    let task = world.task(t);
    line.begin("task ");
    line.number(u64::from(t));
    line.text(" at ");
    line.number(u64::from(task.next()));
    line.text(" of ");
    line.number(statement_count(world.script(), t) as u64);
    line.text(" queued ");
    line.number(u64::from(task.queued()));
    line.text(" running ");
    line.number(u64::from(task.running()));
    line.text("\n");
    line.write(sink)
}

/// Statement by statement, since both lists stand by rising statement.
fn write_statements<K: Sink>(
    world: &World,
    t: u32,
    line: &mut TextLine,
    sink: &mut K,
) -> Result<(), Failed>
    requires spent { world.now.spent ≡ false }
    requires task { t < world.now.script.tasks }
    ensures { let J = (view_record world.now).journal in
        Writes K.held K.faults K.room sink.old sink.new
        (statements_text t (length (statements world.now.script t)) (refusals J t)
        (reads world.now.script world.now.rules J t)) result }
{
    statements_rise();
    let task = world.task(t);
    let mut refusals = task.refusals();
    let mut reads = task.reads();
    for s in 0..statement_count(world.script(), t) {
        let (why, later_refusals) = take_at(refusals, s);
        let (value, later_reads) = take_at(reads, s);
        write_statement(t, s, why, value, line, sink)?;
        refusals = later_refusals;
        reads = later_reads;
    }
    Ok(())
}

/// What became of statement `s`.
fn write_statement<K: Sink>(
    t: u32,
    s: usize,
    why: Option<Refusal>,
    value: Option<u64>,
    line: &mut TextLine,
    sink: &mut K,
) -> Result<(), Failed>
    ensures { Writes K.held K.faults K.room sink.old sink.new (refused_text t s why ++ read_text t s value) result }
{
    write_refused(t, s, why, line, sink)?;
    write_read(t, s, value, line, sink)
}

fn write_refused<K: Sink>(
    t: u32,
    s: usize,
    why: Option<Refusal>,
    line: &mut TextLine,
    sink: &mut K,
) -> Result<(), Failed>
    ensures { Writes K.held K.faults K.room sink.old sink.new (refused_text t s why) result }
{
    let Some(why) = why else {
        return Ok(());
    };
    begin_numbered("refused ", t, s as u64, line);
    add_refusal(why, line);
    line.text("\n");
    line.write(sink)
}

fn write_read<K: Sink>(
    t: u32,
    s: usize,
    value: Option<u64>,
    line: &mut TextLine,
    sink: &mut K,
) -> Result<(), Failed>
    ensures { Writes K.held K.faults K.room sink.old sink.new (read_text t s value) result }
{
    let Some(value) = value else {
        return Ok(());
    };
    begin_numbered("read ", t, s as u64, line);
    line.number(value);
    line.text("\n");
    line.write(sink)
}

fn write_counters<K: Sink>(
    world: &World,
    t: u32,
    line: &mut TextLine,
    sink: &mut K,
) -> Result<(), Failed>
    requires spent { world.now.spent ≡ false }
    requires task { t < world.now.script.tasks }
    ensures { Writes K.held K.faults K.room sink.old sink.new
        (counters_text world.now.script world.now.rules (view_record world.now) t) result }
{
    let task = world.task(t);
    for c in 0..world.script().counters {
        write_counter(t, c, task.counter(c), line, sink)?;
    }
    Ok(())
}

/// A counter's line, where it is above 0.
fn write_counter<K: Sink>(
    t: u32,
    c: u32,
    value: u64,
    line: &mut TextLine,
    sink: &mut K,
) -> Result<(), Failed>
    ensures { Writes K.held K.faults K.room sink.old sink.new (counter_text t c value) result }
{
    if value == 0 {
        return Ok(());
    }
    begin_numbered("counter ", t, u64::from(c), line);
    line.number(value);
    line.text("\n");
    line.write(sink)
}

/// Begins a line with a word, the task, and the number of what is told of it.
fn begin_numbered(word: &str, t: u32, number: u64, line: &mut TextLine)
    requires { length word.now ≤ 10 }
    ensures text { line.new ≡ word.now ++ (decimal t ++ codes " " ++ decimal number ++ codes " ") }
    ensures short { length line.new ≤ length word.now + 42 }
{
    line.begin(word);
    line.number(u64::from(t));
    line.text(" ");
    line.number(number);
    line.text(" ");
}
