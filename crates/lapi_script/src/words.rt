//! The words of a line.

ghost use Rattle.std.specs.Prelude.{◌≡◌, ◌∷◌, [], MatchOption};
ghost use Rattle.lapi_base.specs.Input.Lines.{words_of, is_remark, is_skipped};
ghost use Rattle.lapi_base.specs.Input.Tokens.{same_text};
ghost use Rattle.lapi_base.specs.Input.Reading.{is_word};
ghost use Rattle.lapi_script.specs.Left.{BeginsWord};

use crate::cuts::cut;
use crate::scan::behind_blank_blocks;
use std::marker::Model;

/// Whether the two are the same text.
pub fn is_text(word: &[u8], text: &[u8]) -> bool
    ensures { result ≡ same_text word.now text.now }
{
    word == text
}

/// Whether it begins with #.
pub(crate) fn is_remark(text: &[u8]) -> bool
    ensures { result ≡ is_remark text.now }
{
    match text.split_first() {
        None => false,
        Some((byte, _)) => *byte == b'#',
    }
}

/// What follows the spaces that stand first.
#[tactic(auto, using(crate::proofs::FirstWords::space_skipped, crate::proofs::FirstWords::begins))]
fn behind_spaces(bytes: &[u8]) -> &[u8]
    ensures words { words_of result.now ≡ words_of bytes.now }
    ensures first { BeginsWord result.now }
{
    let mut rest = behind_blank_blocks(bytes);
    loop {
        match rest.split_first() {
            None => return rest,
            Some((byte, after)) => {
                if *byte != b' ' {
                    return rest;
                }
                rest = after;
            }
        }
    }
}

/// The first word, and what follows it.
#[tactic(auto, using(crate::proofs::FirstWords::none_left, crate::proofs::FirstWords::word_first))]
fn first_word(bytes: &[u8]) -> Option<(&[u8], &[u8])>
    ensures { MatchOption result (words_of bytes.now ≡ []) (λ x. words_of bytes.now ≡ x.0.now ∷ words_of x.1.now) }
{
    let rest = behind_spaces(bytes);
    if rest.is_empty() {
        return None;
    }
    match cut(rest, b' ') {
        (word, None) => Some((word, &[])),
        (word, Some(after)) => Some((word, after)),
    }
}

/// The words of a line that are left.
#[derive(Debug, Drop)]
pub struct Words<'a> {
    first: Option<&'a [u8]>,
    rest: &'a [u8],
}

impl<'a> Model for Words<'a> {
    ghost use Rattle.std.specs.Prelude.{ℕ, List};
    ghost use Rattle.lapi_script.specs.Left.{words_left};

    ghost Value = { List (List ℕ) };

    ghost view = { λ w. words_left w.first w.rest.now };
}

impl<'a> Words<'a> {
    pub fn new(line: &'a [u8]) -> Words<'a>
        ensures { result ≡ words_of line.now }
    {
        match first_word(line) {
            None => Words {
                first: None,
                rest: line,
            },
            Some((word, rest)) => Words {
                first: Some(word),
                rest,
            },
        }
    }

    /// The next word, if there is one.
    pub fn next(&mut self) -> Option<&'a [u8]>
        ensures { MatchOption result ((self.old ≡ []) × (self.new ≡ [])) (λ word. self.old ≡ word.now ∷ self.new) }
    {
        let first = self.first?;
        *self = Words::new(self.rest);
        Some(first)
    }

    /// Whether a line of these words is a remark or has none.
    pub fn are_skipped(&self) -> bool
        ensures { result ≡ is_skipped self.now }
    {
        match self.first {
            None => true,
            Some(word) => is_remark(word),
        }
    }

    /// Whether this is the only word.
    pub fn are_only(&self, text: &[u8]) -> bool
        ensures { result ≡ is_word text.now self.now }
    {
        match self.first {
            None => false,
            Some(word) => is_text(word, text) && first_word(self.rest).is_none(),
        }
    }
}
