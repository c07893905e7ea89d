//! How many bytes the messages of a statement carry.
ghost use Rattle.std.specs.Prelude.{◌≡◌, ◌<◌, ◌^◌};
ghost use Rattle.lapi_base.specs.Record.Operations.{length_by, total, target_pieces, origin_pieces};
ghost use Rattle.lapi_base.specs.Record.Valid.{ValidStatement};
ghost use Rattle.lapi_base.specs.declared.message.Leg.TheVariants.{Go, Back};

use crate::no_entries::NoEntries;
use crate::pieces::{origins, targets};
use lapi_base::{Leg, Statement};

/// The bytes that the statement's message of this leg carries: the data, the word of a read-modify-write or of an
/// answer, or none.
pub fn message_length(leg: Leg, statement: &Statement) -> u32
    requires statement { ValidStatement statement.now }
    requires short { length_by leg statement.now < 2 ^ 32 }
    ensures { result ≡ length_by leg statement.now }
{
    match leg {
        Leg::Go => sent(statement),
        Leg::Back => sent_back(statement),
        Leg::Echo => 4,
        Leg::Note | Leg::Join(_) => 0,
    }
}

/// The bytes of the message from the origin.
fn sent(statement: &Statement) -> u32
    requires statement { ValidStatement statement.now }
    requires short { length_by Go statement.now < 2 ^ 32 }
    ensures { result ≡ length_by Go statement.now }
{
    match statement {
        Statement::Put { len, .. } | Statement::Am { len, .. } => *len,
        Statement::Putv { .. } => origin_total(statement) as u32,
        Statement::Get { .. }
        | Statement::Getv { .. }
        | Statement::Rmw { .. }
        | Statement::Store { .. }
        | Statement::Wait { .. }
        | Statement::Set { .. }
        | Statement::Read { .. }
        | Statement::Fence
        | Statement::Gfence
        | Statement::Addr { .. } => 0,
    }
}

/// The bytes of the message back to the origin.
fn sent_back(statement: &Statement) -> u32
    requires statement { ValidStatement statement.now }
    requires short { length_by Back statement.now < 2 ^ 32 }
    ensures { result ≡ length_by Back statement.now }
{
    match statement {
        Statement::Get { len, .. } => *len,
        Statement::Getv { .. } => target_total(statement) as u32,
        Statement::Rmw { .. } => 4,
        Statement::Put { .. }
        | Statement::Putv { .. }
        | Statement::Am { .. }
        | Statement::Store { .. }
        | Statement::Wait { .. }
        | Statement::Set { .. }
        | Statement::Read { .. }
        | Statement::Fence
        | Statement::Gfence
        | Statement::Addr { .. } => 0,
    }
}

/// The bytes of all pieces at the origin.
fn origin_total(statement: &Statement) -> u64
    requires { ValidStatement statement.now }
    ensures { result ≡ total (origin_pieces statement.now) }
{
    origins(&NoEntries, 0, statement).total()
}

/// The bytes of all pieces at the target.
fn target_total(statement: &Statement) -> u64
    requires { ValidStatement statement.now }
    ensures { result ≡ total (target_pieces statement.now) }
{
    targets(&NoEntries, 0, statement).total()
}
