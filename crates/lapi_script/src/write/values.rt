//! Values as they are written, each behind a space.

ghost use Rattle.std.specs.Prelude.{◌≡◌, ◌++◌, ◌∷◌, OnOk, map};
ghost use Rattle.std.specs.List.{flat_map, join_with_byte};
ghost use Rattle.std.specs.Fmt.{decimal};
ghost use Rattle.lapi_base.specs.Input.Tokens.{Counter, Hex, OptionalHex, canonical, offset_text, address_text, piece_text, vector_text};

use itoa::Buffer;
use lapi_base::{Addr, Memory, Piece, Vector};
use std::alloc::Global;

/// Appends bytes.
pub(crate) fn put(out: &mut Vec<u8>, bytes: &[u8]) -> Result<(), Memory>
    ensures { OnOk result (out.new.items ≡ out.old.items ++ bytes.now) }
{
    out.extend_from_slice(bytes)?;
    Ok(())
}

/// A number without a space.
pub(crate) fn digits(out: &mut Vec<u8>, n: u32) -> Result<(), Memory>
    ensures { OnOk result (out.new.items ≡ out.old.items ++ decimal n) }
{
    let mut digits = Buffer::new();
    put(out, digits.format(n).as_bytes())
}

pub(crate) fn number(out: &mut Vec<u8>, n: u32) -> Result<(), Memory>
    ensures { OnOk result (out.new.items ≡ out.old.items ++ 32 ∷ decimal n) }
{
    out.push(b' ')?;
    digits(out, n)
}

pub(crate) fn counter(out: &mut Vec<u8>, counter: Option<u32>) -> Result<(), Memory>
    ensures { OnOk result (out.new.items ≡ out.old.items ++ 32 ∷ canonical Counter counter) }
{
    match counter {
        None => put(out, b" -"),
        Some(n) => number(out, n),
    }
}

pub(crate) fn two_counters(
    out: &mut Vec<u8>,
    first: Option<u32>,
    second: Option<u32>,
) -> Result<(), Memory>
    ensures { OnOk result (out.new.items ≡ out.old.items
        ++ 32 ∷ (canonical Counter first ++ 32 ∷ canonical Counter second)) }
{
    counter(out, first)?;
    counter(out, second)
}

/// A target, an origin and a completion counter.
pub(crate) fn three_counters(
    out: &mut Vec<u8>,
    tgt: Option<u32>,
    org: Option<u32>,
    cmpl: Option<u32>,
) -> Result<(), Memory>
    ensures { OnOk result (out.new.items ≡ out.old.items
        ++ 32 ∷ (canonical Counter tgt ++ 32 ∷ (canonical Counter org ++ 32 ∷ canonical Counter cmpl))) }
{
    counter(out, tgt)?;
    two_counters(out, org, cmpl)
}

fn offset(out: &mut Vec<u8>, offset: u32) -> Result<(), Memory>
    ensures { OnOk result (out.new.items ≡ out.old.items ++ offset_text offset) }
{
    if offset == 0 {
        return Ok(());
    }
    put(out, b"+")?;
    digits(out, offset)
}

/// An address without a space.
fn place(out: &mut Vec<u8>, address: Addr) -> Result<(), Memory>
    ensures { OnOk result (out.new.items ≡ out.old.items ++ address_text address) }
{
    match address {
        Addr::Plain(n) => digits(out, n),
        Addr::Table {
            round,
            offset: past,
        } => {
            put(out, b"@")?;
            digits(out, round)?;
            offset(out, past)
        }
    }
}

pub(crate) fn address(out: &mut Vec<u8>, address: Addr) -> Result<(), Memory>
    ensures { OnOk result (out.new.items ≡ out.old.items ++ 32 ∷ address_text address) }
{
    put(out, b" ")?;
    place(out, address)
}

pub(crate) fn hex(alloc: Global, out: &mut Vec<u8>, bytes: &[u8]) -> Result<(), Memory>
    ensures { OnOk result (out.new.items ≡ out.old.items ++ 32 ∷ canonical Hex bytes.now) }
{
    let digits = hex::encode(alloc, bytes)?;
    put(out, b" ")?;
    put(out, digits.as_str().as_bytes())
}

pub(crate) fn optional_hex(alloc: Global, out: &mut Vec<u8>, bytes: &[u8]) -> Result<(), Memory>
    ensures { OnOk result (out.new.items ≡ out.old.items ++ 32 ∷ canonical OptionalHex bytes.now) }
{
    if bytes.is_empty() {
        return put(out, b" -");
    }
    hex(alloc, out, bytes)
}

fn piece(out: &mut Vec<u8>, piece: Piece) -> Result<(), Memory>
    ensures { OnOk result (out.new.items ≡ out.old.items ++ piece_text piece) }
{
    place(out, piece.at)?;
    put(out, b":")?;
    digits(out, piece.len)
}

/// Pieces with commas between them.
fn pieces(out: &mut Vec<u8>, pieces: &[Piece]) -> Result<(), Memory>
    ensures { OnOk result (out.new.items ≡ out.old.items ++ join_with_byte 44 (map piece_text pieces.now)) }
{
    match pieces.split_first() {
        None => Ok(()),
        Some((first, others)) => {
            piece(out, *first)?;
            more_pieces(out, others)
        }
    }
}

/// Pieces with a comma before each.
fn more_pieces(out: &mut Vec<u8>, pieces: &[Piece]) -> Result<(), Memory>
    ensures { OnOk result (out.new.items ≡ out.old.items ++ flat_map (λ p. 44 ∷ piece_text p) pieces.now) }
{
    for each in pieces {
        put(out, b",")?;
        piece(out, *each)?;
    }
    Ok(())
}

/// A number behind a colon.
fn behind_colon(out: &mut Vec<u8>, n: u32) -> Result<(), Memory>
    ensures { OnOk result (out.new.items ≡ out.old.items ++ 58 ∷ decimal n) }
{
    put(out, b":")?;
    digits(out, n)
}

pub(crate) fn vector(out: &mut Vec<u8>, vector: &Vector) -> Result<(), Memory>
    ensures { OnOk result (out.new.items ≡ out.old.items ++ 32 ∷ vector_text vector.now) }
{
    match vector {
        Vector::List(list) => {
            put(out, b" L:")?;
            pieces(out, list.as_slice())
        }
        Vector::Stride {
            base,
            block,
            stride,
            count,
        } => {
            put(out, b" S:")?;
            place(out, *base)?;
            behind_colon(out, *block)?;
            behind_colon(out, *stride)?;
            behind_colon(out, *count)
        }
    }
}

/// A word and two numbers.
pub(crate) fn word_with_two(
    out: &mut Vec<u8>,
    word: &[u8],
    first: u32,
    second: u32,
) -> Result<(), Memory>
    ensures { OnOk result (out.new.items ≡ out.old.items ++ (word.now ++ 32 ∷ (decimal first ++ 32 ∷ decimal second))) }
{
    put(out, word)?;
    number(out, first)?;
    number(out, second)
}
