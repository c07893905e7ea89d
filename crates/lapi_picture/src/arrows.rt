//! What reaches from one row to another: arrows, crosses and bars.

ghost use Rattle.std.specs.Prelude.{◌≡◌, ◌<◌, ◌^◌, ◌++◌, OnOk, None, Some, codes, length, unwrap_or};
ghost use Rattle.lapi_picture.specs.Chart.{arrow, bar, cargo_class, cross, row_strokes};
ghost use Rattle.lapi_picture.specs.declared.wanted.Wanted.TheVariants as wanted;
ghost use Rattle.lapi_picture.specs.Labels.{found_cargo};
ghost use Rattle.lapi_picture.specs.Rows.{place_of};

use crate::cargo::Cargo;
use crate::deed::Deed;
use crate::label::cargo_at;
use crate::page::{Page, column, side};
use crate::place::place_of;
use crate::row::Row;
use crate::shapes::{add_bar, add_line};
use crate::wanted::Wanted;
use lapi_base::{Event, Memory, MsgName, Reply};

/// What reaches to a row with place `j`, or from it.
#[tactic(auto, unfolding(crate::specs::Chart::row_strokes))]
pub fn add_strokes(
    out: &mut String,
    page: Page,
    rows: &[Row],
    j: usize,
    row: &Row,
) -> Result<(), Memory>
    ensures { OnOk result (out.new.bytes.items ≡ out.old.bytes.items ++ row_strokes page rows.now j row.now) }
{
    match *row {
        Row::Line {
            task,
            deed: Deed::Deliver { from, place },
            reply: Reply::Did,
            ..
        } => add_delivery(out, page, rows, j, from, task, place),
        Row::Line {
            task,
            deed: Deed::Cut { from, place, .. },
            reply: Reply::Bad(_),
            ..
        } => add_cut(out, page, rows, j, from, task, place),
        Row::Happened {
            task,
            event: Event::Begin { name, worker, .. },
        } => add_job(out, page, rows, j, name, task, worker),
        Row::Sent {
            from,
            to,
            place,
            ..
        } => add_lost(out, page, rows, j, from, to, place),
        Row::Line { .. } | Row::Happened { .. } | Row::Counted { .. } => Ok(()),
    }
}

/// The arrow of an entry that row `j` handed over whole.
#[tactic(auto, using(crate::proofs::Unshown::arrow_above), unfolding(crate::specs::Chart::arrow))]
fn add_delivery(
    out: &mut String,
    page: Page,
    rows: &[Row],
    j: usize,
    from: u32,
    to: u32,
    place: u32,
) -> Result<(), Memory>
    ensures { let i = place_of (wanted.Sent from to place) rows.now in
        OnOk result (out.new.bytes.items ≡ out.old.bytes.items ++ arrow page (cargo_class (found_cargo rows.now i)) from to i j) }
{
    if !page.reaches(j) {
        return Ok(());
    }
    match place_of(rows, Wanted::Sent { from, to, place }) {
        Some(i) => add_arrow(out, page, class_of(cargo_at(rows, i)), from, to, i, j),
        None => Ok(()),
    }
}

/// The arrow of an entry of which row `j` handed over the first bytes alone.
#[tactic(auto, using(crate::proofs::Unshown::arrow_above), unfolding(crate::specs::Chart::arrow))]
fn add_cut(
    out: &mut String,
    page: Page,
    rows: &[Row],
    j: usize,
    from: u32,
    to: u32,
    place: u32,
) -> Result<(), Memory>
    ensures { OnOk result (out.new.bytes.items ≡ out.old.bytes.items
        ++ arrow page (codes "cut") from to (place_of (wanted.Sent from to place) rows.now) j) }
{
    if !page.reaches(j) {
        return Ok(());
    }
    match place_of(rows, Wanted::Sent { from, to, place }) {
        Some(i) => add_arrow(out, page, "cut", from, to, i, j),
        None => Ok(()),
    }
}

#[tactic(auto, unfolding(crate::specs::Chart::arrow))]
fn add_arrow(
    out: &mut String,
    page: Page,
    class: &str,
    from: u32,
    to: u32,
    i: usize,
    j: usize,
) -> Result<(), Memory>
    ensures { OnOk result (out.new.bytes.items ≡ out.old.bytes.items ++ arrow page class.now from to (Some i) j) }
{
    if page.shows(i, j) {
        add_line(
            out,
            class,
            side(from, to),
            page.middle(i),
            side(to, from),
            page.middle(j),
        )?;
    }
    Ok(())
}

/// The cross of an entry that row `j` put on its wire and that was never handed over whole.
#[tactic(auto, using(crate::proofs::Unshown::cross_hidden), unfolding(crate::specs::Chart::cross))]
fn add_lost(
    out: &mut String,
    page: Page,
    rows: &[Row],
    j: usize,
    from: u32,
    to: u32,
    place: usize,
) -> Result<(), Memory>
    ensures { OnOk result (out.new.bytes.items ≡ out.old.bytes.items
        ++ cross page from to (place_of (wanted.Delivered from to place) rows.now) j) }
{
    if !page.shows(j, j) {
        return Ok(());
    }
    match place_of(rows, Wanted::Delivered { from, to, place }) {
        Some(_) => Ok(()),
        None => add_cross(out, page, from, to, j),
    }
}

#[tactic(auto, unfolding(crate::specs::Chart::cross))]
fn add_cross(out: &mut String, page: Page, from: u32, to: u32, j: usize) -> Result<(), Memory>
    ensures { OnOk result (out.new.bytes.items ≡ out.old.bytes.items ++ cross page from to None j) }
{
    if page.shows(j, j) {
        let y = page.middle(j);
        let x = side(from, to);
        add_line(out, "lost", x, y, (3 * x + side(to, from)) / 4, y)?;
    }
    Ok(())
}

/// The bar of a job that began in row `j`.
fn add_job(
    out: &mut String,
    page: Page,
    rows: &[Row],
    j: usize,
    name: MsgName,
    task: u32,
    worker: u32,
) -> Result<(), Memory>
    ensures { OnOk result (out.new.bytes.items ≡ out.old.bytes.items
        ++ bar page task worker (unwrap_or (place_of (wanted.Ended name) rows.now) (length rows.now)) j) }
{
    let end = match place_of(rows, Wanted::Ended { name }) {
        Some(i) => i,
        None => rows.len(),
    };
    add_bar_to(out, page, task, worker, end, j)
}

#[tactic(auto, unfolding(crate::specs::Chart::bar))]
fn add_bar_to(
    out: &mut String,
    page: Page,
    task: u32,
    worker: u32,
    end: usize,
    j: usize,
) -> Result<(), Memory>
    requires { end < 2 ^ 63 }
    ensures { OnOk result (out.new.bytes.items ≡ out.old.bytes.items ++ bar page task worker end j) }
{
    if page.shows(j, end) {
        let top = page.edge(j);
        let height = page.edge(end + 1).saturating_sub(top);
        let x = column(task).saturating_sub(9 + 4 * u64::from(worker));
        add_bar(out, x, top, height)?;
    }
    Ok(())
}

fn class_of(cargo: Cargo) -> &'static str
    ensures { result.now ≡ cargo_class cargo }
{
    match cargo {
        Cargo::Data { .. } => "data",
        Cargo::Ack { .. } => "ack",
        Cargo::Nothing => "cut",
    }
}
