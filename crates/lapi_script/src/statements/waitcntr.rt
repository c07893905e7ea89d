//! `waitcntr COUNTER VALUE`

ghost use Rattle.std.specs.Prelude.{◌≡◌, ◌++◌, OnOk};
ghost use Rattle.lapi_base.specs.Input.Forms.{run, wait_form};
ghost use Rattle.lapi_base.specs.Input.Rows.{statement_row, row_line};
ghost use Rattle.lapi_script.specs.Gives.{Gives};

use crate::fault::LineFault;
use crate::fields::{end, number};
use crate::words::Words;
use crate::write::values;
use lapi_base::{Memory, Statement};

#[tactic(auto, unfolding(lapi_base::specs::Input::Forms::wait_form))]
pub(crate) fn read(words: &mut Words) -> Result<Statement, LineFault>
    ensures { Gives (λ s. s) result (run wait_form words.old) }
{
    let counter = number(words)?;
    let value = number(words)?;
    end(words)?;
    Ok(Statement::Wait { counter, value })
}

pub(crate) fn write(out: &mut Vec<u8>, counter: u32, value: u32) -> Result<(), Memory>
    ensures { OnOk result (out.new.items ≡ out.old.items ++ row_line (statement_row (Statement.Wait counter value))) }
{
    values::word_with_two(out, b"waitcntr", counter, value)
}
