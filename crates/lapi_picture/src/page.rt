ghost use Rattle.std.specs.Prelude.{◌≡◌, ◌<◌, ◌*◌, ◌+◌, ◌^◌, nat_le};
ghost use Rattle.lapi_picture.specs.Shapes.{column, edge, is_shown, middle, side, words_column};

use std::cmp;

/// The part of a chart that is shown: all columns, and the rows from `first` on until before `last`.
#[derive(Clone, Copy, Debug)]
pub struct Page {
    pub tasks: u32,
    pub first: u32,
    pub last: u32,
}

impl Page {
    /// Whether something is shown that reaches from row `i` to row `j`.
    pub fn shows(self, i: usize, j: usize) -> bool
        ensures { result ≡ is_shown self i j }
    {
        (i as u64) < u64::from(self.last) && self.reaches(j)
    }

    /// Whether a row isn't above those that are shown.
    pub fn reaches(self, place: usize) -> bool
        ensures { result ≡ nat_le self.first place }
    {
        u64::from(self.first) <= place as u64
    }

    /// The upper edge of the row of this place, in pixels.
    pub fn edge(self, place: usize) -> u64
        ensures edge { result ≡ edge self place }
        ensures small { result < 2 ^ 40 }
    {
        let first = u64::from(self.first);
        let shown = cmp::min(cmp::max(place as u64, first), u64::from(self.last));
        72 + 18 * shown.saturating_sub(first)
    }

    /// Its middle, or the edge where the row isn't shown.
    pub fn middle(self, place: usize) -> u64
        ensures { result ≡ middle self place }
    {
        if self.shows(place, place) {
            self.edge(place) + 9
        } else {
            self.edge(place)
        }
    }

    /// Where all words stand, in pixels from the left.
    pub fn words_column(self) -> u64
        ensures { result ≡ words_column self }
    {
        column(self.tasks).saturating_sub(80)
    }
}

/// The line of a task's life, in pixels from the left.
pub fn column(task: u32) -> u64
    ensures column { result ≡ column task }
    ensures small { result < 2 ^ 40 }
{
    84 + 120 * u64::from(task)
}

/// Where arrows between a task and another leave and reach its line.
pub fn side(task: u32, other: u32) -> u64
    ensures side { result ≡ side task other }
    ensures small { result < 2 ^ 41 }
{
    if other < task {
        column(task).saturating_sub(24)
    } else {
        column(task) + 10
    }
}
