//! The vector that a word stands for.

ghost use Rattle.std.specs.Prelude.{◌≡◌};
ghost use Rattle.lapi_base.specs.Input.Tokens.{piece_of, sizes_of, strided_of, listed_of, vector_of};
ghost use Rattle.lapi_script.specs.Vectors.{address_by, spelled, HoldsVector, HoldsListed};

use crate::cuts::{Parts, split};
use crate::held_vector::HeldVector;
use crate::values::{address_of, number_of, only_number, plain_address_of};
use lapi_base::{Addr, Piece, PieceList, Vector};
use std::marker::Model;

/// Whose memory a vector stands in.
#[derive(Clone, Copy, Debug, Eq, PartialEq)]
pub(crate) enum Side {
    /// Its addresses are plain.
    Origin,
    Target,
}

fn address_by(side: Side, word: &[u8]) -> Option<Addr>
    ensures { result ≡ address_by side word.now }
{
    match side {
        Side::Origin => plain_address_of(word),
        Side::Target => address_of(word),
    }
}

/// `AT:LEN`
#[tactic(auto, unfolding(lapi_base::specs::Input::Tokens::piece_of))]
fn piece_of(side: Side, text: &[u8]) -> Option<Piece>
    ensures { result ≡ piece_of (address_by side) text.now }
{
    let (at, mut parts) = split(text, b':');
    let at = address_by(side, at)?;
    let len = only_number(&mut parts)?;
    Some(Piece { at, len })
}

/// Pieces with commas between them.
#[tactic(auto, unfolding(lapi_base::specs::Input::Tokens::listed_of))]
fn listed_of(side: Side, text: &[u8]) -> Option<HeldVector>
    ensures { HoldsListed result (listed_of (address_by side) text.now) }
{
    let (first, mut parts) = split(text, b',');
    let first = piece_of(side, first)?;
    let mut list = PieceList::new(first);
    let mut many = false;
    while let Some(part) = parts.next() {
        let piece = piece_of(side, part)?;
        if list.as_slice().len() < 16 {
            list.push(piece);
        } else {
            many = true;
        }
    }
    if many {
        return Some(HeldVector::TooManyPieces);
    }
    Some(HeldVector::Held(Vector::List(list)))
}

/// What follows the base of a stride: `BLOCK:STRIDE:COUNT`.
fn sizes_of(base: Addr, parts: &mut Parts) -> Option<Vector>
    ensures { result ≡ sizes_of base parts.old }
{
    let block = number_of(parts.next()?)?;
    let stride = number_of(parts.next()?)?;
    let count = only_number(parts)?;
    if count == 0 {
        return None;
    }
    Some(Vector::Stride {
        base,
        block,
        stride,
        count,
    })
}

/// `BASE:BLOCK:STRIDE:COUNT`
#[tactic(auto, unfolding(lapi_base::specs::Input::Tokens::strided_of))]
fn strided_of(side: Side, text: &[u8]) -> Option<Vector>
    ensures { result ≡ strided_of (address_by side) text.now }
{
    let (base, mut parts) = split(text, b':');
    sizes_of(address_by(side, base)?, &mut parts)
}

/// A word that spells a vector, and what is held of the vector.
#[derive(Debug, Drop)]
pub(crate) struct VectorWord<'a> {
    side: Side,
    word: &'a [u8],
    held: HeldVector,
}

impl<'a> Model for VectorWord<'a> {
    ghost use Rattle.lapi_base.specs.declared.vector.Vector.{Vector};
    ghost use Rattle.lapi_script.specs.Vectors.{spelled, HoldsVector};

    ghost Value = { Vector };

    ghost view = { λ v. spelled v.side v.word.now };

    ghost invariant = { λ v. HoldsVector v.held (spelled v.side v.word.now) };
}

impl<'a> VectorWord<'a> {
    #[tactic(auto, unfolding(lapi_base::specs::Input::Tokens::vector_of), using(crate::proofs::PieceLists::spelled_list))]
    pub(crate) fn read(side: Side, word: &'a [u8]) -> Option<VectorWord<'a>>
        ensures { result ≡ vector_of (address_by side) word.now }
    {
        let (letter, rest) = word.split_first()?;
        let (colon, text) = rest.split_first()?;
        if *colon != b':' {
            return None;
        }
        match *letter {
            b'L' => {
                let held = listed_of(side, text)?;
                Some(VectorWord { side, word, held })
            }
            b'S' => {
                let held = HeldVector::Held(strided_of(side, text)?);
                Some(VectorWord { side, word, held })
            }
            _ => None,
        }
    }

    pub(crate) fn held(self) -> HeldVector
        ensures { HoldsVector result self.entry }
    {
        self.held
    }
}
