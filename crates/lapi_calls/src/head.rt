//! What each packet of a message carries before its bytes, by the message's statement.
ghost use Rattle.std.specs.Prelude.{◌≡◌, ◌^◌, ◌<◌, ◌≤◌, ℕ, true, length};
ghost use Rattle.lapi_base.specs.Record.Operations.{is_data, is_rmw, is_am, has_join};
ghost use Rattle.lapi_base.specs.Record.Handlers as handlers;
ghost use Rattle.lapi_base.specs.Record.Valid.{ValidStatement};
ghost use Rattle.lapi_calls.specs.Calls.{IsSendable, HasRoom};
ghost use Rattle.lapi_calls.specs.Entries.{address_by};
ghost use Rattle.lapi_calls.specs.Heads.{go_head_by, IsGet, IsGoHead, IsJoinHead};

use crate::entries::Entries;
use crate::spans::{origin_spans, target_spans};
use crate::statement::peer;
use lapi_base::{Addr, Bytes, Head, Statement, UserHeader};

/// The head of the message from the origin of a call that isn't refused.
pub fn go_head<E: Entries>(entries: &E, task: u32, statement: &Statement) -> Head
    requires asked { E.valid entries.now }
    requires statement { ValidStatement statement.now × (is_data statement.now ≡ true) }
    requires sendable { IsSendable (E.is_known entries.now) (E.given entries.now) task statement.now }
    ensures { IsGoHead (E.is_known entries.now) (E.given entries.now) task statement.now result }
{
    head_to(entries, peer(task, statement), statement)
}

/// The head of a message to task `d`.
fn head_to<E: Entries>(entries: &E, d: u32, statement: &Statement) -> Head
    requires asked { E.valid entries.now }
    requires statement { ValidStatement statement.now × (is_data statement.now ≡ true) }
    requires room { HasRoom (E.is_known entries.now) (E.given entries.now) d statement.now }
    ensures { result ≡ go_head_by (E.given entries.now) d statement.now }
{
    match statement {
        Statement::Put { to, tgt, cmpl, .. } => Head::Put {
            at: address(entries, d, *to),
            tgt: *tgt,
            cmpl: *cmpl,
        },
        Statement::Putv { tgt, cmpl, .. } => Head::Putv {
            tgt: *tgt,
            cmpl: *cmpl,
            pieces: target_spans(entries, d, statement),
        },
        Statement::Get { .. } | Statement::Getv { .. } => get_head(entries, d, statement),
        Statement::Rmw { .. } => modify_head(entries, d, statement),
        Statement::Am { .. } => active_head(statement),
        Statement::Store { .. }
        | Statement::Wait { .. }
        | Statement::Set { .. }
        | Statement::Read { .. }
        | Statement::Fence
        | Statement::Gfence
        | Statement::Addr { .. } => unreachable!(),
    }
}

/// The head that asks for bytes.
fn get_head<E: Entries>(entries: &E, d: u32, statement: &Statement) -> Head
    requires asked { E.valid entries.now }
    requires statement { ValidStatement statement.now × IsGet statement.now }
    requires room { HasRoom (E.is_known entries.now) (E.given entries.now) d statement.now }
    ensures { result ≡ go_head_by (E.given entries.now) d statement.now }
{
    if let Statement::Get {
        from,
        to,
        len,
        tgt,
        org,
        ..
    } = statement
    {
        return Head::GetGo {
            asked: *len,
            source: address(entries, d, *from),
            dest: *to,
            tgt: *tgt,
            org: *org,
        };
    }
    let Statement::Getv { tgt, org, .. } = statement else {
        unreachable!();
    };
    Head::GetvGo {
        tgt: *tgt,
        org: *org,
        source: target_spans(entries, d, statement),
        dest: origin_spans(statement),
    }
}

/// The head that asks for a word to be modified.
fn modify_head<E: Entries>(entries: &E, d: u32, statement: &Statement) -> Head
    requires asked { E.valid entries.now }
    requires statement { is_rmw statement.now ≡ true }
    requires room { HasRoom (E.is_known entries.now) (E.given entries.now) d statement.now }
    ensures { result ≡ go_head_by (E.given entries.now) d statement.now }
{
    let Statement::Rmw {
        op,
        at,
        in1,
        in2,
        prev,
        org,
        ..
    } = statement
    else {
        unreachable!();
    };
    Head::RmwGo {
        op: *op,
        at: address(entries, d, *at),
        in1: *in1,
        in2: *in2,
        prev: *prev,
        org: *org,
    }
}

/// The head of an active message.
fn active_head(statement: &Statement) -> Head
    requires statement { is_am statement.now ≡ true }
    requires header { length (handlers.user_header statement.now) ≤ 64 }
    ensures { result ≡ go_head_by (λ _ _. 0) 0 statement.now }
{
    let Statement::Am {
        handler,
        header,
        tgt,
        cmpl,
        ..
    } = statement
    else {
        unreachable!();
    };
    Head::Am {
        handler: *handler,
        tgt: *tgt,
        cmpl: *cmpl,
        header: user_header(header),
    }
}

/// The head of the messages by which a task joins the others in a round of this number.
pub fn join_head(round: u32, statement: &Statement) -> Head
    requires { has_join statement.now ≡ true }
    ensures { IsJoinHead round statement.now result }
{
    match statement {
        Statement::Gfence => Head::Gfence { round },
        Statement::Addr { at } => Head::Addr {
            round,
            address: *at,
        },
        Statement::Store { .. }
        | Statement::Put { .. }
        | Statement::Get { .. }
        | Statement::Putv { .. }
        | Statement::Getv { .. }
        | Statement::Rmw { .. }
        | Statement::Am { .. }
        | Statement::Wait { .. }
        | Statement::Set { .. }
        | Statement::Read { .. }
        | Statement::Fence => unreachable!(),
    }
}

/// An address at task `d`, which is known and one of 32 bits.
fn address<E: Entries>(entries: &E, d: u32, at: Addr) -> u32
    requires asked { E.valid entries.now }
    requires small { address_by (E.given entries.now) d at < 2 ^ 32 }
    ensures { result ≡ address_by (E.given entries.now) d at }
{
    match at {
        Addr::Plain(at) => at,
        Addr::Table { round, offset } => entries.entry(round, d) + offset,
    }
}

/// The bytes of a user header, for which there is room.
fn user_header(header: &Bytes) -> UserHeader
    requires { length header.now ≤ 64 }
    ensures { result ≡ header.now }
{
    let mut bytes = UserHeader::new();
    bytes.extend_from_slice(header.as_slice());
    bytes
}
