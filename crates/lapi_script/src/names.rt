//! The words that name statements, workers and the messages of a statement.

ghost use Rattle.std.specs.Prelude.{◌≡◌, ◌∷◌};
ghost use Rattle.lapi_base.specs.Input.Tokens.{dotted_of, join_of, leg_of};

use crate::cuts::{Parts, split};
use crate::values::{number_of, only_number};
use crate::words::is_text;
use lapi_base::Leg;

/// The two numbers of `T.S`.
#[tactic(auto, unfolding(lapi_base::specs::Input::Tokens::dotted_of))]
pub(crate) fn dotted_of(word: &[u8]) -> Option<(u32, u32)>
    ensures { result ≡ dotted_of word.now }
{
    let (first, mut parts) = split(word, b'.');
    let task = number_of(first)?;
    let number = only_number(&mut parts)?;
    Some((task, number))
}

/// What is cut at its hyphens: `join` and a task.
fn join_of(first: &[u8], parts: &mut Parts) -> Option<Leg>
    ensures { result ≡ join_of (first.now ∷ parts.old) }
{
    if !is_text(first, b"join") {
        return None;
    }
    let task = only_number(parts)?;
    Some(Leg::Join(task))
}

#[tactic(auto, unfolding(lapi_base::specs::Input::Tokens::leg_of))]
pub(crate) fn leg_of(word: &[u8]) -> Option<Leg>
    ensures { result ≡ leg_of word.now }
{
    if is_text(word, b"go") {
        Some(Leg::Go)
    } else if is_text(word, b"back") {
        Some(Leg::Back)
    } else if is_text(word, b"note") {
        Some(Leg::Note)
    } else if is_text(word, b"echo") {
        Some(Leg::Echo)
    } else {
        let (first, mut parts) = split(word, b'-');
        join_of(first, &mut parts)
    }
}
