//! Lists that stand by rising statement, taken statement by statement.

ghost use Rattle.std.specs.Prelude.{◌≡◌, ◌+◌, option_to_list};
ghost use Rattle.lapi_base.specs.Laws.Rising.{RiseFrom};
ghost use Rattle.lapi_report.specs.OfStatements.{said_of, from_on};

/// What is said of statement `s`, if anything is, and the entries of later ones; all are of `s` or later.
#[tactic(auto, using(crate::proofs::OfStatements::first_said, crate::proofs::OfStatements::first_later, crate::proofs::OfStatements::none_said, crate::proofs::OfStatements::none_gone))]
pub(crate) fn take_at<T: Copy>(entries: &[(u32, T)], s: usize) -> (Option<T>, &[(u32, T)])
    requires { RiseFrom s entries.now }
    ensures said { option_to_list result.0 ≡ said_of s entries.now }
    ensures later { result.1.now ≡ from_on (s + 1) entries.now }
{
    match entries.split_first() {
        None => (None, entries),
        Some(((statement, said), later)) => {
            if *statement as usize == s {
                (Some(*said), later)
            } else {
                (None, entries)
            }
        }
    }
}
