//! `address_init AT`

ghost use Rattle.std.specs.Prelude.{◌≡◌, ◌++◌, OnOk};
ghost use Rattle.lapi_base.specs.Input.Forms.{run, address_init_form};
ghost use Rattle.lapi_base.specs.Input.Rows.{statement_row, row_line};
ghost use Rattle.lapi_script.specs.Gives.{Gives};

use crate::fault::LineFault;
use crate::fields::{end, number};
use crate::words::Words;
use crate::write::values;
use lapi_base::{Memory, Statement};

#[tactic(auto, unfolding(lapi_base::specs::Input::Forms::address_init_form))]
pub(crate) fn read(words: &mut Words) -> Result<Statement, LineFault>
    ensures { Gives (λ s. s) result (run address_init_form words.old) }
{
    let at = number(words)?;
    end(words)?;
    Ok(Statement::Addr { at })
}

pub(crate) fn write(out: &mut Vec<u8>, at: u32) -> Result<(), Memory>
    ensures { OnOk result (out.new.items ≡ out.old.items ++ row_line (statement_row (Statement.Addr at))) }
{
    values::put(out, b"address_init")?;
    values::number(out, at)
}
