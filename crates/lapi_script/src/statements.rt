//! The statements by their first word: each form has a file, in which it is read and written.

mod address_init;
mod amsend;
mod get;
mod getcntr;
mod getv;
mod put;
mod putv;
mod rmw;
mod setcntr;
mod store;
mod waitcntr;

ghost use Rattle.std.specs.Prelude.{◌≡◌, ◌++◌, OnOk, Result};
ghost use Rattle.lapi_base.specs.Input.Forms.{run, End, statement_form};
ghost use Rattle.lapi_base.specs.Input.Rows.{statement_row, row_line};
ghost use Rattle.lapi_base.specs.declared.input.LineError.{LineError};
ghost use Rattle.lapi_base.specs.declared.statement.Statement.{Statement};
ghost use Rattle.lapi_script.specs.Gives.{Gives};
ghost use Rattle.lapi_script.specs.ReadLines.{HoldsStatement};

use crate::fault::{LineFault, syntax};
use crate::fields::end;
use crate::words::{Words, is_text};
use crate::write::values;
use lapi_base::{Memory, Statement};
use std::alloc::Global;

/// A statement of the right form.
#[derive(Debug, Drop)]
pub(crate) enum ReadStatement {
    Held(Statement),
    /// One of its vectors has more than 16 pieces. Nothing is kept of it.
    TooManyPieces,
}

/// The statement that begins with this word.
pub(crate) fn read(
    alloc: Global,
    word: &[u8],
    words: &mut Words,
) -> Result<ReadStatement, LineFault>
    ensures { HoldsStatement result (run (statement_form word.now) words.old) }
{
    if is_text(word, b"store") {
        held(store::read(alloc, words))
    } else if is_text(word, b"put") {
        held(put::read(words))
    } else if is_text(word, b"get") {
        held(get::read(words))
    } else if is_text(word, b"putv") {
        putv::read(words)
    } else if is_text(word, b"getv") {
        getv::read(words)
    } else if is_text(word, b"rmw") {
        held(rmw::read(words))
    } else if is_text(word, b"amsend") {
        held(amsend::read(alloc, words))
    } else if is_text(word, b"waitcntr") {
        held(waitcntr::read(words))
    } else if is_text(word, b"setcntr") {
        held(setcntr::read(words))
    } else if is_text(word, b"getcntr") {
        held(getcntr::read(words))
    } else if is_text(word, b"fence") {
        held(alone(Statement::Fence, words))
    } else if is_text(word, b"gfence") {
        held(alone(Statement::Gfence, words))
    } else if is_text(word, b"address_init") {
        held(address_init::read(words))
    } else {
        Err(syntax())
    }
}

/// A statement that is one word.
fn alone(statement: Statement, words: &mut Words) -> Result<Statement, LineFault>
    ensures { Gives (λ s. s) result (run (End statement) words.old) }
{
    end(words)?;
    Ok(statement)
}

fn held(read: Result<Statement, LineFault>) -> Result<ReadStatement, LineFault>
    ensures { (reading : Result Statement LineError) → Gives (λ s. s) read reading → HoldsStatement result reading }
{
    Ok(ReadStatement::Held(read?))
}

/// A statement's line, without its end.
pub(crate) fn write(alloc: Global, out: &mut Vec<u8>, statement: &Statement) -> Result<(), Memory>
    ensures { OnOk result (out.new.items ≡ out.old.items ++ row_line (statement_row statement.now)) }
{
    match statement {
        Statement::Store { at, bytes } => store::write(alloc, out, *at, bytes.as_slice()),
        Statement::Put { .. } => put::write(out, statement),
        Statement::Get { .. } => get::write(out, statement),
        Statement::Putv { .. } => putv::write(out, statement),
        Statement::Getv { .. } => getv::write(out, statement),
        Statement::Rmw { .. } => rmw::write(out, statement),
        Statement::Am { .. } => amsend::write(alloc, out, statement),
        Statement::Wait { counter, value } => waitcntr::write(out, *counter, *value),
        Statement::Set { counter, value } => setcntr::write(out, *counter, *value),
        Statement::Read { counter } => getcntr::write(out, *counter),
        Statement::Fence => values::put(out, b"fence"),
        Statement::Gfence => values::put(out, b"gfence"),
        Statement::Addr { at } => address_init::write(out, *at),
    }
}
