//! The chart of some rows.

ghost use Rattle.std.specs.Prelude.{◌≡◌, ◌++◌, IfOk, OnOk};
ghost use Rattle.lapi_picture.specs.Chart.{chart_text, each_row, row_labels, row_strokes};

use crate::arrows::add_strokes;
use crate::fixed::Fixed;
use crate::label::add_labels;
use crate::page::Page;
use crate::row::Row;
use crate::sheet::add_top;
use lapi_base::Memory;
use std::alloc::Global;

/// The chart of these rows, of which the page says which are shown.
#[tactic(auto, unfolding(crate::specs::Chart::chart_text))]
pub fn draw_chart(alloc: Global, page: Page, rows: &[Row]) -> Result<String, Memory>
    ensures { IfOk result (λ text. text.bytes.items ≡ chart_text page rows.now) }
{
    let mut out = String::new(alloc);
    add_top(&mut out, page)?;
    add_all_strokes(&mut out, page, rows)?;
    add_all_labels(&mut out, page, rows)?;
    out.push_str(Fixed::SheetEnd.text())?;
    Ok(out)
}

fn add_all_strokes(out: &mut String, page: Page, rows: &[Row]) -> Result<(), Memory>
    ensures { OnOk result (out.new.bytes.items ≡ out.old.bytes.items
        ++ each_row (row_strokes page rows.now) 0 rows.now) }
{
    for (j, row) in rows.iter().enumerate() {
        add_strokes(out, page, rows, j, row)?;
    }
    Ok(())
}

fn add_all_labels(out: &mut String, page: Page, rows: &[Row]) -> Result<(), Memory>
    ensures { OnOk result (out.new.bytes.items ≡ out.old.bytes.items
        ++ each_row (row_labels page rows.now) 0 rows.now) }
{
    for (j, row) in rows.iter().enumerate() {
        add_labels(out, page, rows, j, row)?;
    }
    Ok(())
}
