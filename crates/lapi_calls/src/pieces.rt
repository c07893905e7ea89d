//! Where the pieces of a statement lie.
ghost use Rattle.std.specs.Prelude.{◌≡◌, ◌^◌, ◌<◌, ◌≤◌, length, map};
ghost use Rattle.lapi_base.specs.declared.piece.Piece.{Piece};
ghost use Rattle.lapi_base.specs.Record.Operations.{pieces_of, target_pieces, origin_pieces};
ghost use Rattle.lapi_base.specs.Record.Valid.{ValidStatement, ValidVector};
ghost use Rattle.lapi_calls.specs.Reaches.{reach_of, stride_reaches};

use crate::entries::Entries;
use crate::reach::{Reach, Reaches};
use lapi_base::{Addr, Piece, Statement, Vector};

/// The pieces at the target, task `d`.
pub fn targets<E: Entries>(entries: &E, d: u32, statement: &Statement) -> Reaches
    requires asked { E.valid entries.now }
    requires statement { ValidStatement statement.now }
    ensures { result ≡ map (reach_of (E.is_known entries.now) (E.given entries.now) d) (target_pieces statement.now) }
{
    match statement {
        Statement::Put { to, len, .. } => Reaches::one(reach(entries, d, *to, *len)),
        Statement::Get { from, len, .. } => Reaches::one(reach(entries, d, *from, *len)),
        Statement::Putv { to, .. } => vector(entries, d, to),
        Statement::Getv { from, .. } => vector(entries, d, from),
        Statement::Rmw { at, .. } => Reaches::one(reach(entries, d, *at, 4)),
        Statement::Store { .. }
        | Statement::Am { .. }
        | Statement::Wait { .. }
        | Statement::Set { .. }
        | Statement::Read { .. }
        | Statement::Fence
        | Statement::Gfence
        | Statement::Addr { .. } => Reaches::new(),
    }
}

/// The pieces at the origin, which are at plain addresses.
pub fn origins<E: Entries>(entries: &E, d: u32, statement: &Statement) -> Reaches
    requires asked { E.valid entries.now }
    requires statement { ValidStatement statement.now }
    ensures { result ≡ map (reach_of (E.is_known entries.now) (E.given entries.now) d) (origin_pieces statement.now) }
{
    match statement {
        Statement::Store { at, bytes } => {
            let len = bytes.as_slice().len() as u32;
            Reaches::one(reach(entries, d, Addr::Plain(*at), len))
        }
        Statement::Put { from, len, .. } | Statement::Am { from, len, .. } => {
            Reaches::one(reach(entries, d, Addr::Plain(*from), *len))
        }
        Statement::Get { to, len, .. } => Reaches::one(reach(entries, d, Addr::Plain(*to), *len)),
        Statement::Putv { from, .. } => vector(entries, d, from),
        Statement::Getv { to, .. } => vector(entries, d, to),
        Statement::Rmw { prev, .. } => Reaches::one(reach(entries, d, Addr::Plain(*prev), 4)),
        Statement::Addr { at } => Reaches::one(reach(entries, d, Addr::Plain(*at), 0)),
        Statement::Wait { .. }
        | Statement::Set { .. }
        | Statement::Read { .. }
        | Statement::Fence
        | Statement::Gfence => Reaches::new(),
    }
}

/// Where a piece lies at task `d`, if its address is known.
fn reach<E: Entries>(entries: &E, d: u32, at: Addr, len: u32) -> Reach
    requires { E.valid entries.now }
    ensures reach { result ≡ reach_of (E.is_known entries.now) (E.given entries.now) d (record { at = at; len = len }) }
    ensures bounded { result.at < 2 ^ 33 }
{
    match at {
        Addr::Plain(at) => Reach {
            known: true,
            at: at as u64,
            len,
        },
        Addr::Table { round, offset } => Reach {
            known: entries.knows(round),
            at: entries.entry(round, d) as u64 + offset as u64,
            len,
        },
    }
}

/// Where the pieces of a vector lie.
#[tactic(auto, unfolding(lapi_base::specs::Record::Operations::pieces_of))]
fn vector<E: Entries>(entries: &E, d: u32, vector: &Vector) -> Reaches
    requires asked { E.valid entries.now }
    requires vector { ValidVector vector.now }
    ensures { result ≡ map (reach_of (E.is_known entries.now) (E.given entries.now) d) (pieces_of vector.now) }
{
    match vector {
        Vector::List(pieces) => list(entries, d, pieces.as_slice()),
        Vector::Stride {
            base,
            block,
            stride,
            count,
        } => {
            let first = reach(entries, d, *base, *block);
            strides(first, *stride, *count)
        }
    }
}

/// Where the pieces of a list lie.
fn list<E: Entries>(entries: &E, d: u32, pieces: &[Piece]) -> Reaches
    requires asked { E.valid entries.now }
    requires count { length pieces.now ≤ 16 }
    ensures { result ≡ map (reach_of (E.is_known entries.now) (E.given entries.now) d) pieces.now }
{
    let mut reaches = Reaches::new();
    for piece in pieces {
        let reach = reach(entries, d, piece.at, piece.len);
        reaches.push(reach);
    }
    reaches
}

/// So many pieces of the first's length, each a stride after the one before.
fn strides(first: Reach, stride: u32, count: u32) -> Reaches
    requires count { count ≤ 16 }
    requires first { first.at < 2 ^ 33 }
    ensures { result ≡ stride_reaches first.known first.at first.len stride count }
{
    let mut reaches = Reaches::new();
    for k in 0..count {
        reaches.push(Reach {
            known: first.known,
            at: first.at + k as u64 * stride as u64,
            len: first.len,
        });
    }
    reaches
}
