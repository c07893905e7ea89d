//! The canonical text of an input.

pub(crate) mod values;

ghost use Rattle.std.specs.Prelude.{◌≡◌, ◌++◌, ◌∷◌, OnOk, IfOk, Ok, map, length, ◌≤◌};
ghost use Rattle.std.specs.List.{flat_map};
ghost use Rattle.std.specs.Fmt.{decimal};
ghost use Rattle.lapi_base.specs.Input.Rows.{statement_row, task_row, head_row, sizes_row, line_row, row_line, row_text, task_rows, canon};
ghost use Rattle.lapi_base.specs.Input.Reading.{read, most_input};
ghost use Rattle.lapi_script.specs.Inputs.{input_of, IsWritable};

use crate::write::values::{digits, number, put};
use crate::{acts, statements};
use lapi_base::{Bytes, Line, Memory, Script, Statement, Statements};
use lapi_text::text_laws;
use std::alloc::Global;

/// A line of the schedule, without its end.
#[tactic(auto, using(crate::proofs::Texts::line_parts))]
fn line(alloc: Global, out: &mut Vec<u8>, line: &Line) -> Result<(), Memory>
    ensures { OnOk result (out.new.items ≡ out.old.items ++ row_line (line_row line.now)) }
{
    digits(out, line.lane)?;
    acts::write(alloc, out, &line.act)
}

/// A schedule line's canonical text, without its end of line.
pub fn line_text(alloc: Global, schedule_line: &Line) -> Result<Bytes, Memory>
    ensures { IfOk result (λ text. text ≡ row_line (line_row schedule_line.now)) }
{
    let mut out = Vec::new(alloc);
    line(alloc, &mut out, schedule_line)?;
    Ok(Bytes::from(out))
}

fn lines(alloc: Global, out: &mut Vec<u8>, schedule: &[Line]) -> Result<(), Memory>
    ensures { OnOk result (out.new.items ≡ out.old.items ++ flat_map row_text (map line_row schedule.now)) }
{
    for each in schedule {
        line(alloc, out, each)?;
        out.push(b'\n')?;
    }
    Ok(())
}

fn statement_lines(alloc: Global, out: &mut Vec<u8>, list: &[Statement]) -> Result<(), Memory>
    ensures { OnOk result (out.new.items ≡ out.old.items ++ flat_map row_text (map statement_row list.now)) }
{
    for each in list {
        statements::write(alloc, out, each)?;
        out.push(b'\n')?;
    }
    Ok(())
}

/// A name and its number.
fn named(out: &mut Vec<u8>, name: &[u8], n: u32) -> Result<(), Memory>
    ensures { OnOk result (out.new.items ≡ out.old.items ++ (name.now ++ 32 ∷ decimal n)) }
{
    put(out, name)?;
    number(out, n)
}

fn head(out: &mut Vec<u8>, layout: u32) -> Result<(), Memory>
    ensures { OnOk result (out.new.items ≡ out.old.items ++ row_text (head_row layout)) }
{
    named(out, b"lapi", layout)?;
    put(out, b"\n")
}

fn sizes(out: &mut Vec<u8>, script: &Script) -> Result<(), Memory>
    ensures { OnOk result (out.new.items ≡ out.old.items ++ row_text (sizes_row script.now)) }
{
    named(out, b"tasks", script.tasks)?;
    named(out, b" memory", script.memory)?;
    named(out, b" counters", script.counters)?;
    named(out, b" workers", script.workers)?;
    put(out, b"\n")
}

/// A task's line and its statements.
fn task(alloc: Global, out: &mut Vec<u8>, t: usize, list: &[Statement]) -> Result<(), Memory>
    ensures { OnOk result (out.new.items ≡ out.old.items
        ++ flat_map row_text (task_row t ∷ map statement_row list.now)) }
{
    let t = t.to_string(alloc)?;
    put(out, b"task ")?;
    put(out, t.as_str().as_bytes())?;
    put(out, b"\n")?;
    statement_lines(alloc, out, list)
}

/// The tasks' lines.
#[tactic(auto, using(crate::proofs::Texts::goes_on, crate::proofs::Texts::is_done))]
fn tasks(alloc: Global, out: &mut Vec<u8>, lists: &[Statements]) -> Result<(), Memory>
    ensures { OnOk result (out.new.items ≡ out.old.items ++ flat_map row_text (task_rows 0 lists.now)) }
{
    let mut t = 0;
    for list in lists {
        task(alloc, out, t, list.as_slice())?;
        t += 1;
    }
    Ok(())
}

#[tactic(auto, using(crate::proofs::Texts::whole_text))]
fn input(alloc: Global, script: &Script, schedule: &[Line]) -> Result<Bytes, Memory>
    ensures { IfOk result (λ text. text ≡ canon (input_of script.now schedule.now)) }
{
    let mut out = Vec::new(alloc);
    head(&mut out, script.layout)?;
    sizes(&mut out, script)?;
    tasks(alloc, &mut out, script.lists.as_slice())?;
    put(&mut out, b"schedule\n")?;
    lines(alloc, &mut out, schedule)?;
    put(&mut out, b"done\n")?;
    Ok(Bytes::from(out))
}

/// The canonical text of a script and a schedule: single spaces, no skipped lines, lower-case
/// digits, and a line feed at each end.
pub fn write_input(alloc: Global, script: &Script, schedule: &[Line]) -> Result<Bytes, Memory>
    ensures canon { IfOk result (λ text. text ≡ canon (input_of script.now schedule.now)) }
    // Read again it is the same script and schedule.
    ensures reads_back { IsWritable (input_of script.now schedule.now)
        → IfOk result (λ text. length text ≤ most_input → read text ≡ Ok (input_of script.now schedule.now)) }
{
    text_laws();
    input(alloc, script, schedule)
}
