//! The sheet that a chart is drawn on.

ghost use Rattle.std.specs.Prelude.{◌≡◌, ◌++◌, OnOk};
ghost use Rattle.std.specs.List.{flat_map};
ghost use Rattle.lapi_base.specs.Record.Operations.{numbers_below};
ghost use Rattle.lapi_picture.specs.Sheet.{column_text, counts_text, frame_text, marks_text, sheet_top, spoken_text};

use crate::fixed::Fixed;
use crate::page::{Page, column};
use crate::shapes::{add_attribute, add_line, begin_text, end_text};
use lapi_base::Memory;

/// What stands before the rows.
#[tactic(auto, unfolding(crate::specs::Sheet::sheet_top))]
pub fn add_top(out: &mut String, page: Page) -> Result<(), Memory>
    ensures { OnOk result (out.new.bytes.items ≡ out.old.bytes.items ++ sheet_top page) }
{
    let bottom = page.edge(page.last as usize);
    add_frame(out, column(page.tasks) + 590, bottom + 24)?;
    add_spoken(out, page.tasks, page.last.saturating_sub(page.first))?;
    out.push_str(Fixed::Style.text())?;
    add_marks(out)?;
    out.push_str(Fixed::Legend.text())?;
    add_columns(out, page)
}

#[tactic(auto, unfolding(crate::specs::Sheet::marks_text))]
fn add_marks(out: &mut String) -> Result<(), Memory>
    ensures { OnOk result (out.new.bytes.items ≡ out.old.bytes.items ++ marks_text) }
{
    out.push_str(Fixed::Marks.text())?;
    out.push_str(Fixed::ReplyMarks.text())?;
    out.push_str(Fixed::StatementMarks.text())?;
    out.push_str(Fixed::MessageMarks.text())?;
    out.push_str(Fixed::JobMarks.text())?;
    Ok(())
}

#[tactic(auto, unfolding(crate::specs::Sheet::frame_text))]
fn add_frame(out: &mut String, width: u64, height: u64) -> Result<(), Memory>
    ensures { OnOk result (out.new.bytes.items ≡ out.old.bytes.items ++ frame_text width height) }
{
    out.push_str(Fixed::Frame.text())?;
    add_attribute(out, "width", width)?;
    add_attribute(out, "height", height)?;
    out.push_str(Fixed::FrameEnd.text())?;
    Ok(())
}

/// For those who hear the picture.
#[tactic(auto, unfolding(crate::specs::Sheet::spoken_text))]
fn add_spoken(out: &mut String, tasks: u32, rows: u32) -> Result<(), Memory>
    ensures { OnOk result (out.new.bytes.items ≡ out.old.bytes.items ++ spoken_text tasks rows) }
{
    out.push_str(Fixed::Title.text())?;
    add_counts(out, tasks, rows)?;
    out.push_str(Fixed::Described.text())?;
    Ok(())
}

#[tactic(auto, unfolding(crate::specs::Sheet::counts_text))]
fn add_counts(out: &mut String, tasks: u32, rows: u32) -> Result<(), Memory>
    ensures { OnOk result (out.new.bytes.items ≡ out.old.bytes.items ++ counts_text tasks rows) }
{
    write!(out, "{tasks}")?;
    out.push_str(Fixed::Columns.text())?;
    write!(out, "{rows}")?;
    Ok(())
}

fn add_columns(out: &mut String, page: Page) -> Result<(), Memory>
    ensures { OnOk result (out.new.bytes.items ≡ out.old.bytes.items
        ++ flat_map (column_text page) (numbers_below page.tasks)) }
{
    for t in 0..page.tasks {
        add_column(out, page, t)?;
    }
    Ok(())
}

/// The name of a task above the line of its life.
#[tactic(auto, unfolding(crate::specs::Sheet::column_text))]
fn add_column(out: &mut String, page: Page, t: u32) -> Result<(), Memory>
    ensures { OnOk result (out.new.bytes.items ≡ out.old.bytes.items ++ column_text page t) }
{
    let x = column(t);
    add_line(out, "life", x, 60, x, page.edge(page.last as usize))?;
    begin_text(out, x.saturating_sub(24), 52)?;
    write!(out, "task {t}")?;
    end_text(out)
}
