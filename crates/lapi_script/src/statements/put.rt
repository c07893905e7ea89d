//! `put TARGET TO FROM LEN TGT ORG CMPL`

ghost use Rattle.std.specs.Prelude.{◌≡◌, ◌++◌, OnOk};
ghost use Rattle.lapi_base.specs.Input.Forms.{run, put_form};
ghost use Rattle.lapi_base.specs.Input.Rows.{statement_row, row_line};
ghost use Rattle.lapi_script.specs.Gives.{Gives};
ghost use Rattle.lapi_base.specs.Record.Kinds.{IsPut};

use crate::fault::LineFault;
use crate::fields::{address, counter, end, number};
use crate::words::Words;
use crate::write::values;
use lapi_base::{Memory, Statement};

#[tactic(auto, unfolding(lapi_base::specs::Input::Forms::put_form))]
pub(crate) fn read(words: &mut Words) -> Result<Statement, LineFault>
    ensures { Gives (λ s. s) result (run put_form words.old) }
{
    let target = number(words)?;
    let to = address(words)?;
    let from = number(words)?;
    let len = number(words)?;
    let tgt = counter(words)?;
    let org = counter(words)?;
    let cmpl = counter(words)?;
    end(words)?;
    Ok(Statement::Put {
        target,
        to,
        from,
        len,
        tgt,
        org,
        cmpl,
    })
}

pub(crate) fn write(out: &mut Vec<u8>, statement: &Statement) -> Result<(), Memory>
    requires { IsPut statement.now }
    ensures { OnOk result (out.new.items ≡ out.old.items ++ row_line (statement_row statement.now)) }
{
    let Statement::Put {
        target,
        to,
        from,
        len,
        tgt,
        org,
        cmpl,
    } = statement
    else {
        unreachable!()
    };
    values::put(out, b"put")?;
    values::number(out, *target)?;
    values::address(out, *to)?;
    values::number(out, *from)?;
    values::number(out, *len)?;
    values::three_counters(out, *tgt, *org, *cmpl)
}
