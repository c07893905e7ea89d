//! The values of a line, one after the other.

ghost use Rattle.std.specs.Prelude.{◌≡◌};
ghost use Rattle.lapi_base.specs.Input.Tokens.{Number, Counter, Hex, OptionalHex, Address, PlainVector, TargetVector, Dotted, LegWord};
ghost use Rattle.lapi_base.specs.Input.Forms.{value_at, word_at, keyword_at, end_at};
ghost use Rattle.lapi_script.specs.Gives.{Gives};

use crate::fault::{LineFault, syntax};
use crate::names::{dotted_of, leg_of};
use crate::pieces::{Side, VectorWord};
use crate::values::{address_of, counter_of, hex_of, number_of, optional_hex_of};
use crate::words::{Words, is_text};
use lapi_base::{Addr, Bytes, Leg};
use std::alloc::Global;

pub fn word<'a>(words: &mut Words<'a>) -> Result<&'a [u8], LineFault>
    ensures { Gives (λ word. (word.now, words.new)) result (word_at words.old) }
{
    match words.next() {
        None => Err(syntax()),
        Some(word) => Ok(word),
    }
}

/// That the next word is this one.
pub fn keyword(words: &mut Words, text: &[u8]) -> Result<(), LineFault>
    ensures { Gives (λ _. words.new) result (keyword_at text.now words.old) }
{
    if is_text(word(words)?, text) {
        Ok(())
    } else {
        Err(syntax())
    }
}

/// That no word is left.
pub fn end(words: &mut Words) -> Result<(), LineFault>
    ensures { Gives (λ x. x) result (end_at words.old) }
{
    match words.next() {
        None => Ok(()),
        Some(_) => Err(syntax()),
    }
}

#[tactic(auto, unfolding(lapi_base::specs::Input::Tokens::value_of))]
pub fn number(words: &mut Words) -> Result<u32, LineFault>
    ensures { Gives (λ n. (n, words.new)) result (value_at Number words.old) }
{
    let text = word(words)?;
    match number_of(text) {
        None => Err(syntax()),
        Some(n) => Ok(n),
    }
}

#[tactic(auto, unfolding(lapi_base::specs::Input::Tokens::value_of))]
pub(crate) fn counter(words: &mut Words) -> Result<Option<u32>, LineFault>
    ensures { Gives (λ c. (c, words.new)) result (value_at Counter words.old) }
{
    let text = word(words)?;
    match counter_of(text) {
        None => Err(syntax()),
        Some(c) => Ok(c),
    }
}

#[tactic(auto, unfolding(lapi_base::specs::Input::Tokens::value_of))]
pub(crate) fn address(words: &mut Words) -> Result<Addr, LineFault>
    ensures { Gives (λ at. (at, words.new)) result (value_at Address words.old) }
{
    let text = word(words)?;
    match address_of(text) {
        None => Err(syntax()),
        Some(at) => Ok(at),
    }
}

#[tactic(auto, unfolding(lapi_base::specs::Input::Tokens::value_of))]
pub fn hex(alloc: Global, words: &mut Words) -> Result<Bytes, LineFault>
    ensures { Gives (λ bytes. (bytes, words.new)) result (value_at Hex words.old) }
{
    let text = word(words)?;
    hex_of(alloc, text)
}

#[tactic(auto, unfolding(lapi_base::specs::Input::Tokens::value_of))]
pub(crate) fn optional_hex(alloc: Global, words: &mut Words) -> Result<Bytes, LineFault>
    ensures { Gives (λ bytes. (bytes, words.new)) result (value_at OptionalHex words.old) }
{
    let text = word(words)?;
    optional_hex_of(alloc, text)
}

#[tactic(auto, unfolding(lapi_base::specs::Input::Tokens::value_of))]
pub(crate) fn plain_vector<'a>(words: &mut Words<'a>) -> Result<VectorWord<'a>, LineFault>
    ensures { Gives (λ vector. (vector, words.new)) result (value_at PlainVector words.old) }
{
    let text = word(words)?;
    match VectorWord::read(Side::Origin, text) {
        None => Err(syntax()),
        Some(vector) => Ok(vector),
    }
}

#[tactic(auto, unfolding(lapi_base::specs::Input::Tokens::value_of))]
pub(crate) fn target_vector<'a>(words: &mut Words<'a>) -> Result<VectorWord<'a>, LineFault>
    ensures { Gives (λ vector. (vector, words.new)) result (value_at TargetVector words.old) }
{
    let text = word(words)?;
    match VectorWord::read(Side::Target, text) {
        None => Err(syntax()),
        Some(vector) => Ok(vector),
    }
}

#[tactic(auto, unfolding(lapi_base::specs::Input::Tokens::value_of))]
pub(crate) fn dotted(words: &mut Words) -> Result<(u32, u32), LineFault>
    ensures { Gives (λ x. (x, words.new)) result (value_at Dotted words.old) }
{
    let text = word(words)?;
    match dotted_of(text) {
        None => Err(syntax()),
        Some(x) => Ok(x),
    }
}

#[tactic(auto, unfolding(lapi_base::specs::Input::Tokens::value_of))]
pub(crate) fn leg(words: &mut Words) -> Result<Leg, LineFault>
    ensures { Gives (λ leg. (leg, words.new)) result (value_at LegWord words.old) }
{
    let text = word(words)?;
    match leg_of(text) {
        None => Err(syntax()),
        Some(leg) => Ok(leg),
    }
}
