//! `putv TARGET TO FROM TGT ORG CMPL`, with a vector on either side

ghost use Rattle.std.specs.Prelude.{◌≡◌, ◌++◌, OnOk};
ghost use Rattle.lapi_base.specs.Input.Forms.{run, putv_form};
ghost use Rattle.lapi_base.specs.Input.Rows.{statement_row, row_line};
ghost use Rattle.lapi_script.specs.ReadLines.{HoldsStatement};
ghost use Rattle.lapi_base.specs.Record.Kinds.{IsPutv};

use crate::fault::LineFault;
use crate::fields::{counter, end, number, plain_vector, target_vector};
use crate::held_vector::HeldVector;
use crate::statements::ReadStatement;
use crate::words::Words;
use crate::write::values;
use lapi_base::{Memory, Statement};

#[tactic(auto, unfolding(lapi_base::specs::Input::Forms::putv_form, lapi_base::specs::Input::Reading::keeps_pieces))]
pub(crate) fn read(words: &mut Words) -> Result<ReadStatement, LineFault>
    ensures { HoldsStatement result (run putv_form words.old) }
{
    let target = number(words)?;
    let to = target_vector(words)?;
    let from = plain_vector(words)?;
    let tgt = counter(words)?;
    let org = counter(words)?;
    let cmpl = counter(words)?;
    end(words)?;
    Ok(match (to.held(), from.held()) {
        (HeldVector::Held(to), HeldVector::Held(from)) => ReadStatement::Held(Statement::Putv {
            target,
            to,
            from,
            tgt,
            org,
            cmpl,
        }),
        _ => ReadStatement::TooManyPieces,
    })
}

pub(crate) fn write(out: &mut Vec<u8>, statement: &Statement) -> Result<(), Memory>
    requires { IsPutv statement.now }
    ensures { OnOk result (out.new.items ≡ out.old.items ++ row_line (statement_row statement.now)) }
{
    let Statement::Putv {
        target,
        to,
        from,
        tgt,
        org,
        cmpl,
    } = statement
    else {
        unreachable!()
    };
    values::put(out, b"putv")?;
    values::number(out, *target)?;
    values::vector(out, to)?;
    values::vector(out, from)?;
    values::three_counters(out, *tgt, *org, *cmpl)
}
