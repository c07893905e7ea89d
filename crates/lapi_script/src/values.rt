//! The value that a word stands for.

ghost use Rattle.std.specs.Prelude.{◌≡◌, ◌∷◌};
ghost use Rattle.lapi_base.specs.Input.Tokens.{number_of, is_padded, digits_from, counter_of, plain_address_of, address_of, table_of, hex_of, optional_hex_of, only_part};
ghost use Rattle.lapi_base.specs.Input.Forms.{well_formed};
ghost use Rattle.lapi_script.specs.Gives.{Gives};

use crate::cuts::{Parts, split};
use crate::fault::{LineFault, syntax};
use crate::words::is_text;
use hex::FromHexError;
use lapi_base::{Addr, Bytes};
use std::alloc::Global;

fn is_padded(word: &[u8]) -> bool
    ensures { result ≡ is_padded word.now }
{
    word.is_empty() || (word.len() > 1 && word[0] == b'0')
}

fn digits(word: &[u8]) -> Option<u32>
    ensures { result ≡ digits_from 0 word.now }
{
    let mut number: u32 = 0;
    for byte in word {
        if !byte.is_ascii_digit() {
            return None;
        }
        let digit = u32::from(*byte - b'0');
        number = number.checked_mul(10)?.checked_add(digit)?;
    }
    Some(number)
}

/// The number that a word spells in decimal, without a leading zero.
#[tactic(auto, unfolding(lapi_base::specs::Input::Tokens::number_of))]
pub fn number_of(word: &[u8]) -> Option<u32>
    ensures { result ≡ number_of word.now }
{
    if is_padded(word) { None } else { digits(word) }
}

#[tactic(auto, unfolding(lapi_base::specs::Input::Tokens::counter_of))]
pub(crate) fn counter_of(word: &[u8]) -> Option<Option<u32>>
    ensures { result ≡ counter_of word.now }
{
    if is_text(word, b"-") {
        return Some(None);
    }
    match number_of(word) {
        None => None,
        Some(n) => Some(Some(n)),
    }
}

/// The number of this part, where no other follows.
fn alone(part: &[u8], parts: &mut Parts) -> Option<u32>
    ensures { result ≡ only_part number_of (part.now ∷ parts.old) }
{
    match parts.next() {
        None => number_of(part),
        Some(_) => None,
    }
}

/// The number that the only part left stands for.
pub(crate) fn only_number(parts: &mut Parts) -> Option<u32>
    ensures { result ≡ only_part number_of parts.old }
{
    match parts.next() {
        None => None,
        Some(part) => alone(part, parts),
    }
}

#[tactic(auto, unfolding(lapi_base::specs::Input::Tokens::plain_address_of))]
pub(crate) fn plain_address_of(word: &[u8]) -> Option<Addr>
    ensures { result ≡ plain_address_of word.now }
{
    match number_of(word) {
        None => None,
        Some(n) => Some(Addr::Plain(n)),
    }
}

/// The address that stands behind the @.
#[tactic(auto, unfolding(lapi_base::specs::Input::Tokens::table_of))]
fn table_of(text: &[u8]) -> Option<Addr>
    ensures { result ≡ table_of text.now }
{
    let (round, mut parts) = split(text, b'+');
    let round = number_of(round)?;
    match parts.next() {
        None => Some(Addr::Table { round, offset: 0 }),
        Some(part) => match alone(part, &mut parts) {
            None => None,
            Some(offset) => Some(Addr::Table { round, offset }),
        },
    }
}

#[tactic(auto, unfolding(lapi_base::specs::Input::Tokens::address_of))]
pub(crate) fn address_of(word: &[u8]) -> Option<Addr>
    ensures { result ≡ address_of word.now }
{
    match word.split_first() {
        None => None,
        Some((first, text)) => {
            if *first == b'@' {
                table_of(text)
            } else {
                plain_address_of(word)
            }
        }
    }
}

/// One byte or more.
#[tactic(auto, unfolding(lapi_base::specs::Input::Tokens::hex_of))]
pub(crate) fn hex_of(alloc: Global, word: &[u8]) -> Result<Bytes, LineFault>
    ensures { Gives (λ bytes. bytes) result (well_formed (hex_of word.now)) }
{
    match hex::decode(alloc, word) {
        Ok(bytes) => {
            if bytes.is_empty() {
                return Err(syntax());
            }
            Ok(Bytes::from(bytes))
        }
        Err(FromHexError::OutOfMemory) => Err(LineFault::Memory),
        Err(_) => Err(syntax()),
    }
}

#[tactic(auto, unfolding(lapi_base::specs::Input::Tokens::optional_hex_of))]
pub(crate) fn optional_hex_of(alloc: Global, word: &[u8]) -> Result<Bytes, LineFault>
    ensures { Gives (λ bytes. bytes) result (well_formed (optional_hex_of word.now)) }
{
    if is_text(word, b"-") {
        Ok(Bytes::new(alloc))
    } else {
        hex_of(alloc, word)
    }
}
