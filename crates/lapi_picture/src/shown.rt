ghost use Rattle.std.specs.Prelude.{◌≡◌, ◌≤◌};
ghost use Rattle.lapi_picture.specs.Rows.{page_of, place_or_end};

use crate::page::Page;
use crate::place::place_of;
use crate::row::Row;
use crate::wanted::Wanted;
use std::cmp;

/// The page that shows the lines from number `from` on until before number `until`.
pub fn page_of(tasks: u32, rows: &[Row], from: u32, until: u32) -> Page
    ensures { result ≡ page_of tasks rows.now from until }
{
    let first = place_or_end(rows, Wanted::Line { line: from });
    let last = place_or_end(rows, Wanted::Line { line: until });
    Page {
        tasks,
        first: cmp::min(first, 4_294_967_295) as u32,
        last: cmp::min(last, 4_294_967_295) as u32,
    }
}

fn place_or_end(rows: &[Row], wanted: Wanted) -> usize
    ensures { result ≡ place_or_end wanted rows.now }
{
    match place_of(rows, wanted) {
        Some(j) => j,
        None => rows.len(),
    }
}
