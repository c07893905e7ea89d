//! A mark and its words for each row.

ghost use Rattle.std.specs.Prelude.{◌≡◌, ◌++◌, OnOk, Some};
ghost use Rattle.lapi_picture.specs.Chart.{line_number, row_labels};
ghost use Rattle.lapi_picture.specs.Labels.{event_mark, found_cargo, found_words, handed_words, reply_mark, row_mark, row_task, row_words, said_words};
ghost use Rattle.lapi_picture.specs.Rows.{cargo_of};

use crate::cargo::Cargo;
use crate::deed::Deed;
use crate::page::{Page, column};
use crate::place::place_of;
use crate::row::Row;
use crate::shapes::{add_mark, begin_text, end_text};
use crate::wanted::Wanted;
use crate::words::{add_cargo, add_event, add_numbers, add_reply};
use lapi_base::{Event, Memory, Reply};

/// What is said of a row with place `j`, if it is shown.
#[tactic(auto, unfolding(crate::specs::Chart::row_labels))]
pub fn add_labels(
    out: &mut String,
    page: Page,
    rows: &[Row],
    j: usize,
    row: &Row,
) -> Result<(), Memory>
    ensures { OnOk result (out.new.bytes.items ≡ out.old.bytes.items ++ row_labels page rows.now j row.now) }
{
    if page.shows(j, j) {
        let y = page.edge(j);
        add_number(out, y + 13, row)?;
        add_mark(out, mark_of(row), column(task_of(row)), y + 9)?;
        begin_text(out, page.words_column(), y + 13)?;
        add_said(out, rows, row)?;
        end_text(out)?;
    }
    Ok(())
}

/// The number of a line, at the left.
#[tactic(auto, unfolding(crate::specs::Chart::line_number))]
fn add_number(out: &mut String, y: u64, row: &Row) -> Result<(), Memory>
    ensures { OnOk result (out.new.bytes.items ≡ out.old.bytes.items ++ line_number y row.now) }
{
    match row {
        Row::Line { line, .. } => {
            begin_text(out, 8, y)?;
            let line = *line;
            write!(out, "{line}")?;
            end_text(out)?;
        }
        Row::Happened { .. } | Row::Counted { .. } | Row::Sent { .. } => {}
    }
    Ok(())
}

/// The task and the words.
#[tactic(auto, unfolding(crate::specs::Labels::said_words))]
fn add_said(out: &mut String, rows: &[Row], row: &Row) -> Result<(), Memory>
    ensures { OnOk result (out.new.bytes.items ≡ out.old.bytes.items ++ said_words rows.now row.now) }
{
    let task = task_of(row);
    write!(out, "task {task}: ")?;
    add_words(out, rows, row)
}

#[tactic(auto, unfolding(crate::specs::Labels::row_words))]
fn add_words(out: &mut String, rows: &[Row], row: &Row) -> Result<(), Memory>
    ensures { OnOk result (out.new.bytes.items ≡ out.old.bytes.items ++ row_words rows.now row.now) }
{
    match *row {
        Row::Line {
            task,
            deed,
            reply,
            ..
        } => {
            out.push_str(deed.word())?;
            add_numbers(out, deed)?;
            out.push_str(": ")?;
            add_reply(out, reply)?;
            add_handed(out, rows, task, deed)?;
        }
        Row::Happened { event, .. } => add_event(out, event)?,
        Row::Counted { counter, value, .. } => write!(out, "counter {counter} is {value}")?,
        Row::Sent {
            to,
            place,
            cargo,
            ..
        } => {
            write!(out, "to {to} entry {place}, ")?;
            add_cargo(out, cargo)?;
        }
    }
    Ok(())
}

/// What the entry that was handed over says.
#[tactic(auto, unfolding(crate::specs::Labels::handed_words))]
fn add_handed(out: &mut String, rows: &[Row], task: u32, deed: Deed) -> Result<(), Memory>
    ensures { OnOk result (out.new.bytes.items ≡ out.old.bytes.items ++ handed_words rows.now task deed) }
{
    match deed {
        Deed::Deliver { from, place } | Deed::Cut { from, place, .. } => {
            let to = task;
            add_found(out, rows, place_of(rows, Wanted::Sent { from, to, place }))
        }
        Deed::Step
        | Deed::Poll
        | Deed::Tick
        | Deed::Inject { .. }
        | Deed::Begin { .. }
        | Deed::End { .. } => Ok(()),
    }
}

#[tactic(auto, unfolding(crate::specs::Labels::found_words))]
fn add_found(out: &mut String, rows: &[Row], sent: Option<usize>) -> Result<(), Memory>
    ensures { OnOk result (out.new.bytes.items ≡ out.old.bytes.items ++ found_words rows.now sent) }
{
    match sent {
        Some(i) => {
            out.push_str(", ")?;
            add_cargo(out, cargo_at(rows, i))
        }
        None => Ok(()),
    }
}

/// What the packet of the row at a place says.
pub fn cargo_at(rows: &[Row], i: usize) -> Cargo
    ensures { result ≡ found_cargo rows.now (Some i) }
{
    match rows.get(i) {
        Some(row) => cargo_of(row),
        None => Cargo::Nothing,
    }
}

fn cargo_of(row: &Row) -> Cargo
    ensures { result ≡ cargo_of row.now }
{
    match row {
        Row::Sent { cargo, .. } => *cargo,
        Row::Line { .. } | Row::Happened { .. } | Row::Counted { .. } => Cargo::Nothing,
    }
}

#[tactic(auto, unfolding(crate::specs::Labels::row_task))]
fn task_of(row: &Row) -> u32
    ensures { result ≡ row_task row.now }
{
    match row {
        Row::Line { task, .. } | Row::Happened { task, .. } | Row::Counted { task, .. } => *task,
        Row::Sent { from, .. } => *from,
    }
}

#[tactic(auto, unfolding(crate::specs::Labels::row_mark))]
fn mark_of(row: &Row) -> &'static str
    ensures { result.now ≡ row_mark row.now }
{
    match row {
        Row::Line { reply, .. } => reply_mark(*reply),
        Row::Happened { event, .. } => event_mark(*event),
        Row::Counted { .. } => "counter",
        Row::Sent { .. } => "sent",
    }
}

fn reply_mark(reply: Reply) -> &'static str
    ensures { result.now ≡ reply_mark reply }
{
    match reply {
        Reply::Did => "did",
        Reply::Blocked => "blocked",
        Reply::Absent => "absent",
        Reply::Idle => "idle",
        Reply::Busy => "busy",
        Reply::Bad(_) => "bad",
    }
}

fn event_mark(event: Event) -> &'static str
    ensures { result.now ≡ event_mark event }
{
    match event {
        Event::Issue { .. } => "issue",
        Event::Refuse { .. } => "refuse",
        Event::Enter { .. } => "enter",
        Event::Pass { .. } => "pass",
        Event::Copy(_) => "copy",
        Event::Head(_) => "head",
        Event::Land(_) => "land",
        Event::Begin { .. } => "begin",
        Event::End { .. } => "end",
    }
}
