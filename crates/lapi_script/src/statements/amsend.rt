//! `amsend TARGET HANDLER HEADER FROM LEN TGT ORG CMPL`

ghost use Rattle.std.specs.Prelude.{◌≡◌, ◌++◌, OnOk};
ghost use Rattle.lapi_base.specs.Input.Forms.{run, amsend_form};
ghost use Rattle.lapi_base.specs.Input.Rows.{statement_row, row_line};
ghost use Rattle.lapi_script.specs.Gives.{Gives};
ghost use Rattle.lapi_base.specs.Record.Kinds.{IsAm};

use crate::fault::LineFault;
use crate::fields::{counter, end, number, optional_hex};
use crate::words::Words;
use crate::write::values;
use lapi_base::{Memory, Statement};
use std::alloc::Global;

#[tactic(auto, unfolding(lapi_base::specs::Input::Forms::amsend_form))]
pub(crate) fn read(alloc: Global, words: &mut Words) -> Result<Statement, LineFault>
    ensures { Gives (λ s. s) result (run amsend_form words.old) }
{
    let target = number(words)?;
    let handler = number(words)?;
    let header = optional_hex(alloc, words)?;
    let from = number(words)?;
    let len = number(words)?;
    let tgt = counter(words)?;
    let org = counter(words)?;
    let cmpl = counter(words)?;
    end(words)?;
    Ok(Statement::Am {
        target,
        handler,
        header,
        from,
        len,
        tgt,
        org,
        cmpl,
    })
}

pub(crate) fn write(alloc: Global, out: &mut Vec<u8>, statement: &Statement) -> Result<(), Memory>
    requires { IsAm statement.now }
    ensures { OnOk result (out.new.items ≡ out.old.items ++ row_line (statement_row statement.now)) }
{
    let Statement::Am {
        target,
        handler,
        header,
        from,
        len,
        tgt,
        org,
        cmpl,
    } = statement
    else {
        unreachable!()
    };
    values::put(out, b"amsend")?;
    values::number(out, *target)?;
    values::number(out, *handler)?;
    values::optional_hex(alloc, out, header.as_slice())?;
    values::number(out, *from)?;
    values::number(out, *len)?;
    values::three_counters(out, *tgt, *org, *cmpl)
}
