//! `store AT BYTES`

ghost use Rattle.std.specs.Prelude.{◌≡◌, ◌++◌, OnOk};
ghost use Rattle.lapi_base.specs.Input.Forms.{run, store_form};
ghost use Rattle.lapi_base.specs.Input.Rows.{statement_row, row_line};
ghost use Rattle.lapi_script.specs.Gives.{Gives};

use crate::fault::LineFault;
use crate::fields::{end, hex, number};
use crate::words::Words;
use crate::write::values;
use lapi_base::{Memory, Statement};
use std::alloc::Global;

#[tactic(auto, unfolding(lapi_base::specs::Input::Forms::store_form))]
pub(crate) fn read(alloc: Global, words: &mut Words) -> Result<Statement, LineFault>
    ensures { Gives (λ s. s) result (run store_form words.old) }
{
    let at = number(words)?;
    let bytes = hex(alloc, words)?;
    end(words)?;
    Ok(Statement::Store { at, bytes })
}

pub(crate) fn write(alloc: Global, out: &mut Vec<u8>, at: u32, bytes: &[u8]) -> Result<(), Memory>
    ensures { OnOk result (out.new.items ≡ out.old.items ++ row_line (statement_row (Statement.Store at bytes.now))) }
{
    values::put(out, b"store")?;
    values::number(out, at)?;
    values::hex(alloc, out, bytes)
}
