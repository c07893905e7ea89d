//! `getv TARGET FROM TO TGT ORG`, with a vector on either side

ghost use Rattle.std.specs.Prelude.{◌≡◌, ◌++◌, OnOk};
ghost use Rattle.lapi_base.specs.Input.Forms.{run, getv_form};
ghost use Rattle.lapi_base.specs.Input.Rows.{statement_row, row_line};
ghost use Rattle.lapi_script.specs.ReadLines.{HoldsStatement};
ghost use Rattle.lapi_base.specs.Record.Kinds.{IsGetv};

use crate::fault::LineFault;
use crate::fields::{counter, end, number, plain_vector, target_vector};
use crate::held_vector::HeldVector;
use crate::statements::ReadStatement;
use crate::words::Words;
use crate::write::values;
use lapi_base::{Memory, Statement};

#[tactic(auto, unfolding(lapi_base::specs::Input::Forms::getv_form, lapi_base::specs::Input::Reading::keeps_pieces))]
pub(crate) fn read(words: &mut Words) -> Result<ReadStatement, LineFault>
    ensures { HoldsStatement result (run getv_form words.old) }
{
    let target = number(words)?;
    let from = target_vector(words)?;
    let to = plain_vector(words)?;
    let tgt = counter(words)?;
    let org = counter(words)?;
    end(words)?;
    Ok(match (from.held(), to.held()) {
        (HeldVector::Held(from), HeldVector::Held(to)) => ReadStatement::Held(Statement::Getv {
            target,
            from,
            to,
            tgt,
            org,
        }),
        _ => ReadStatement::TooManyPieces,
    })
}

pub(crate) fn write(out: &mut Vec<u8>, statement: &Statement) -> Result<(), Memory>
    requires { IsGetv statement.now }
    ensures { OnOk result (out.new.items ≡ out.old.items ++ row_line (statement_row statement.now)) }
{
    let Statement::Getv {
        target,
        from,
        to,
        tgt,
        org,
    } = statement
    else {
        unreachable!()
    };
    values::put(out, b"getv")?;
    values::number(out, *target)?;
    values::vector(out, from)?;
    values::vector(out, to)?;
    values::two_counters(out, *tgt, *org)
}
