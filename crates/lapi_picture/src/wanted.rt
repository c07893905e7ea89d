ghost use Rattle.std.specs.Prelude.{◌≡◌};
ghost use Rattle.lapi_picture.specs.Rows.{is_wanted};

use crate::deed::Deed;
use crate::row::Row;
use lapi_base::{Event, MsgName, Reply};

/// What is looked for among the rows of a chart.
#[derive(Clone, Copy, Debug)]
pub enum Wanted {
    /// The row that put this entry on its wire.
    Sent { from: u32, to: u32, place: u32 },
    /// The row that handed it over whole.
    Delivered { from: u32, to: u32, place: usize },
    /// A line of the schedule with this number or a later one.
    Line { line: u32 },
    /// The end of this job.
    Ended { name: MsgName },
}

impl Wanted {
    /// Whether this row is wanted.
    pub fn is(self, row: &Row) -> bool
        ensures { result ≡ is_wanted self row.now }
    {
        match self {
            Wanted::Sent { from, to, place } => is_sent(from, to, place, row),
            Wanted::Delivered { from, to, place } => is_delivered(from, to, place, row),
            Wanted::Line { line } => is_from(line, row),
            Wanted::Ended { name } => is_ended(name, row),
        }
    }
}

fn is_sent(a: u32, b: u32, k: u32, row: &Row) -> bool
    ensures { result ≡ is_wanted (Wanted.Sent a b k) row.now }
{
    match row {
        Row::Sent {
            from,
            to,
            place,
            ..
        } => *from == a && *to == b && *place == k as usize,
        Row::Line { .. } | Row::Happened { .. } | Row::Counted { .. } => false,
    }
}

fn is_delivered(a: u32, b: u32, k: usize, row: &Row) -> bool
    ensures { result ≡ is_wanted (Wanted.Delivered a b k) row.now }
{
    match row {
        Row::Line {
            task,
            deed: Deed::Deliver { from, place },
            reply: Reply::Did,
            ..
        } => *from == a && *task == b && *place as usize == k,
        Row::Line { .. } | Row::Happened { .. } | Row::Counted { .. } | Row::Sent { .. } => false,
    }
}

fn is_ended(wanted: MsgName, row: &Row) -> bool
    ensures { result ≡ is_wanted (Wanted.Ended wanted) row.now }
{
    match row {
        Row::Happened {
            event: Event::End { name, .. },
            ..
        } => name.is_same(wanted),
        Row::Line { .. } | Row::Happened { .. } | Row::Counted { .. } | Row::Sent { .. } => false,
    }
}

fn is_from(first: u32, row: &Row) -> bool
    ensures { result ≡ is_wanted (Wanted.Line first) row.now }
{
    match row {
        Row::Line { line, .. } => first <= *line,
        Row::Happened { .. } | Row::Counted { .. } | Row::Sent { .. } => false,
    }
}
