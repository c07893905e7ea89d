ghost use Rattle.std.specs.Prelude.{◌≡◌, ◌<◌, MatchOption, length};
ghost use Rattle.lapi_picture.specs.Rows.{place_of};

use crate::row::Row;
use crate::wanted::Wanted;

/// The place of the first row that is wanted.
pub fn place_of(rows: &[Row], wanted: Wanted) -> Option<usize>
    ensures place { result ≡ place_of wanted rows.now }
    ensures within { MatchOption result (Unit {0}) (λ j. j < length rows.now) }
{
    for (j, row) in rows.iter().enumerate() {
        if wanted.is(row) {
            return Some(j);
        }
    }
    None
}
