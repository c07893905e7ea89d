//! `get TARGET FROM TO LEN TGT ORG`

ghost use Rattle.std.specs.Prelude.{◌≡◌, ◌++◌, OnOk};
ghost use Rattle.lapi_base.specs.Input.Forms.{run, get_form};
ghost use Rattle.lapi_base.specs.Input.Rows.{statement_row, row_line};
ghost use Rattle.lapi_script.specs.Gives.{Gives};
ghost use Rattle.lapi_base.specs.Record.Kinds.{IsGet};

use crate::fault::LineFault;
use crate::fields::{address, counter, end, number};
use crate::words::Words;
use crate::write::values;
use lapi_base::{Memory, Statement};

#[tactic(auto, unfolding(lapi_base::specs::Input::Forms::get_form))]
pub(crate) fn read(words: &mut Words) -> Result<Statement, LineFault>
    ensures { Gives (λ s. s) result (run get_form words.old) }
{
    let target = number(words)?;
    let from = address(words)?;
    let to = number(words)?;
    let len = number(words)?;
    let tgt = counter(words)?;
    let org = counter(words)?;
    end(words)?;
    Ok(Statement::Get {
        target,
        from,
        to,
        len,
        tgt,
        org,
    })
}

pub(crate) fn write(out: &mut Vec<u8>, statement: &Statement) -> Result<(), Memory>
    requires { IsGet statement.now }
    ensures { OnOk result (out.new.items ≡ out.old.items ++ row_line (statement_row statement.now)) }
{
    let Statement::Get {
        target,
        from,
        to,
        len,
        tgt,
        org,
    } = statement
    else {
        unreachable!()
    };
    values::put(out, b"get")?;
    values::number(out, *target)?;
    values::address(out, *from)?;
    values::number(out, *to)?;
    values::number(out, *len)?;
    values::two_counters(out, *tgt, *org)
}
