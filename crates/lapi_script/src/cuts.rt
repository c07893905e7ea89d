//! Texts that are cut at each byte of a kind.

ghost use Rattle.std.specs.Prelude.{◌≡◌, ◌∷◌, ◌==◌, ◌<◌, [], length, MatchOption};
ghost use Rattle.std.specs.List.{slice_split};
ghost use Rattle.lapi_base.specs.Input.Lines.{lines_of};
ghost use Rattle.lapi_script.specs.Left.{parts_left};

use crate::scan::place_of;
use std::marker::Model;

/// What stands before the first such byte, and what stands after it where there is one.
#[tactic(auto, using(crate::proofs::Splits::cut_there, crate::proofs::Splits::place_within, crate::proofs::Splits::cut_nowhere))]
pub(crate) fn cut(bytes: &[u8], byte: u8) -> (&[u8], Option<&[u8]>)
    ensures parts { slice_split (λ b. b == byte) bytes.now ≡ result.0.now ∷ parts_left byte result.1 }
    ensures shorter { MatchOption result.1 (result.0.now ≡ bytes.now) (λ rest. length rest.now < length bytes.now) }
{
    match place_of(bytes, byte) {
        None => (bytes, None),
        Some(place) => {
            let (front, back) = bytes.split_at(place);
            let (_, rest) = back.split_at(1);
            (front, Some(rest))
        }
    }
}

/// The first line, without its line feed, and what follows it.
#[tactic(auto, using(crate::proofs::Splits::more_lines, crate::proofs::Splits::last_line))]
pub fn first_line(bytes: &[u8]) -> (&[u8], &[u8])
    requires { 0 < length bytes.now }
    ensures lines { lines_of bytes.now ≡ result.0.now ∷ lines_of result.1.now }
    ensures shorter { length result.1.now < length bytes.now }
{
    match cut(bytes, b'\n') {
        (line, None) => (line, &[]),
        (line, Some(rest)) => (line, rest),
    }
}

/// The parts of a text that are left, where it is cut at each such byte.
#[derive(Debug, Drop)]
pub(crate) struct Parts<'a> {
    byte: u8,
    rest: Option<&'a [u8]>,
}

impl<'a> Model for Parts<'a> {
    ghost use Rattle.std.specs.Prelude.{ℕ, List};
    ghost use Rattle.lapi_script.specs.Left.{parts_left};

    ghost Value = { List (List ℕ) };

    ghost view = { λ p. parts_left p.byte p.rest };
}

impl<'a> Parts<'a> {
    /// The next part, if there is one.
    pub(crate) fn next(&mut self) -> Option<&'a [u8]>
        ensures { MatchOption result ((self.old ≡ []) × (self.new ≡ [])) (λ part. self.old ≡ part.now ∷ self.new) }
    {
        match self.rest {
            None => None,
            Some(text) => {
                let (part, rest) = cut(text, self.byte);
                self.rest = rest;
                Some(part)
            }
        }
    }
}

/// The first part of a text, and the others.
pub(crate) fn split(text: &[u8], byte: u8) -> (&[u8], Parts)
    ensures { slice_split (λ b. b == byte) text.now ≡ result.0.now ∷ result.1 }
{
    let (first, rest) = cut(text, byte);
    (first, Parts { byte, rest })
}
