ghost use Rattle.std.specs.Prelude.{◌≡◌, ◌<◌, ◌≤◌, ◌++◌, length, codes, false, IfErr};
ghost use Rattle.std.specs.Fmt.{decimal};
ghost use Rattle.lapi_base.specs.Record.WorldView.{view_record};
ghost use Rattle.lapi_base.specs.Output.WireText.{entry_line, entry_lines, wires_from_text, wire_text};
ghost use Rattle.lapi_io.specs.Writes.{Writes};

use crate::text_line::TextLine;
use lapi_base::{Bytes, WriteFault};
use lapi_io::{Failed, Sink};
use lapi_world::World;

/// Writes a line for each entry of each wire. It takes no memory.
pub fn write_wire<K: Sink>(world: &World, sink: &mut K) -> Result<(), WriteFault>
    requires { world.now.spent ≡ false }
    ensures written { Writes K.held K.faults K.room sink.old sink.new
        (wire_text world.now.script (view_record world.now)) result }
    ensures only_failed { IfErr result (λ fault. fault ≡ WriteFault.Failed) }
{
    write_wires(world, sink)?;
    Ok(())
}

#[tactic(auto, unfolding(lapi_base::specs::Output::WireText::wire_text))]
fn write_wires<K: Sink>(world: &World, sink: &mut K) -> Result<(), Failed>
    requires { world.now.spent ≡ false }
    ensures { Writes K.held K.faults K.room sink.old sink.new
        (wire_text world.now.script (view_record world.now)) result }
{
    let mut line = TextLine::new();
    for a in 0..world.script().tasks {
        write_wires_from(world, a, &mut line, sink)?;
    }
    Ok(())
}

fn write_wires_from<K: Sink>(
    world: &World,
    a: u32,
    line: &mut TextLine,
    sink: &mut K,
) -> Result<(), Failed>
    requires spent { world.now.spent ≡ false }
    requires task { a < world.now.script.tasks }
    ensures { Writes K.held K.faults K.room sink.old sink.new
        (wires_from_text world.now.script (view_record world.now) a) result }
{
    for b in 0..world.script().tasks {
        write_entries(a, b, world.wire(a, b), line, sink)?;
    }
    Ok(())
}

pub(crate) fn write_entries<K: Sink>(
    a: u32,
    b: u32,
    entries: &[Bytes],
    line: &mut TextLine,
    sink: &mut K,
) -> Result<(), Failed>
    ensures { Writes K.held K.faults K.room sink.old sink.new (entry_lines a b 0 entries.now) result }
{
    for (k, entry) in entries.iter().enumerate() {
        write_entry(a, b, k, entry.as_slice(), line, sink)?;
    }
    Ok(())
}

fn write_entry<K: Sink>(
    a: u32,
    b: u32,
    k: usize,
    entry: &[u8],
    line: &mut TextLine,
    sink: &mut K,
) -> Result<(), Failed>
    ensures { Writes K.held K.faults K.room sink.old sink.new (entry_line a b k entry.now) result }
{
    begin_entry(a, b, k, line);
    line.long_hex(entry, sink)?;
    line.text("\n");
    line.write(sink)
}

/// Leaves in `line` what stands before the bytes of entry `k` from task `a` to task `b`.
fn begin_entry(a: u32, b: u32, k: usize, line: &mut TextLine)
    ensures text { line.new ≡ (codes "wire " ++ decimal a ++ codes " " ++ decimal b
        ++ codes " " ++ decimal k ++ codes " ") }
    ensures short { length line.new ≤ 100 }
{
    line.begin("wire ");
    line.number(u64::from(a));
    line.text(" ");
    line.number(u64::from(b));
    line.text(" ");
    line.number(k as u64);
    line.text(" ");
}
