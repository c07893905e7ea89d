//! `rmw TARGET OP AT IN1 PREV ORG`, and with `cas` a second operand behind the first

ghost use Rattle.std.specs.Prelude.{◌≡◌, ◌++◌, OnOk};
ghost use Rattle.lapi_base.specs.Input.Forms.{run, rmw_form, one_operand_form, cas_form};
ghost use Rattle.lapi_base.specs.Input.Rows.{statement_row, row_line};
ghost use Rattle.lapi_script.specs.Gives.{Gives};
ghost use Rattle.lapi_base.specs.Record.Kinds.{IsRmw};
ghost use Rattle.lapi_script.specs.Operations.{second_text, operation_text};

use crate::fault::{LineFault, syntax};
use crate::fields::{address, counter, end, number, word};
use crate::words::{Words, is_text};
use crate::write::values;
use lapi_base::{Addr, Memory, RmwOp, Statement};

/// An operation with one operand.
#[tactic(auto, unfolding(lapi_base::specs::Input::Forms::one_operand_form))]
fn one_operand(target: u32, op: RmwOp, words: &mut Words) -> Result<Statement, LineFault>
    ensures { Gives (λ s. s) result (run (one_operand_form target op) words.old) }
{
    let at = address(words)?;
    let in1 = number(words)?;
    let prev = number(words)?;
    let org = counter(words)?;
    end(words)?;
    Ok(Statement::Rmw {
        target,
        op,
        at,
        in1,
        in2: 0,
        prev,
        org,
    })
}

#[tactic(auto, unfolding(lapi_base::specs::Input::Forms::cas_form))]
fn cas(target: u32, words: &mut Words) -> Result<Statement, LineFault>
    ensures { Gives (λ s. s) result (run (cas_form target) words.old) }
{
    let at = address(words)?;
    let in1 = number(words)?;
    let in2 = number(words)?;
    let prev = number(words)?;
    let org = counter(words)?;
    end(words)?;
    Ok(Statement::Rmw {
        target,
        op: RmwOp::Cas,
        at,
        in1,
        in2,
        prev,
        org,
    })
}

#[tactic(auto, unfolding(lapi_base::specs::Input::Forms::rmw_form))]
pub(crate) fn read(words: &mut Words) -> Result<Statement, LineFault>
    ensures { Gives (λ s. s) result (run rmw_form words.old) }
{
    let target = number(words)?;
    let op = word(words)?;
    if is_text(op, b"add") {
        one_operand(target, RmwOp::Add, words)
    } else if is_text(op, b"or") {
        one_operand(target, RmwOp::Or, words)
    } else if is_text(op, b"swap") {
        one_operand(target, RmwOp::Swap, words)
    } else if is_text(op, b"cas") {
        cas(target, words)
    } else {
        Err(syntax())
    }
}

/// A second operand, with a compare-and-swap alone.
fn second_operand(out: &mut Vec<u8>, op: RmwOp, in2: u32) -> Result<(), Memory>
    ensures { OnOk result (out.new.items ≡ out.old.items ++ second_text op in2) }
{
    match op {
        RmwOp::Cas => values::number(out, in2),
        RmwOp::Add | RmwOp::Or | RmwOp::Swap => Ok(()),
    }
}

/// An operation, an address and the operands.
fn operation(out: &mut Vec<u8>, op: RmwOp, at: Addr, in1: u32, in2: u32) -> Result<(), Memory>
    ensures { OnOk result (out.new.items ≡ out.old.items ++ operation_text op at in1 in2) }
{
    values::put(out, b" ")?;
    values::put(out, op.word().as_bytes())?;
    values::address(out, at)?;
    values::number(out, in1)?;
    second_operand(out, op, in2)
}

#[tactic(auto, using(crate::proofs::Texts::rmw_text))]
pub(crate) fn write(out: &mut Vec<u8>, statement: &Statement) -> Result<(), Memory>
    requires { IsRmw statement.now }
    ensures { OnOk result (out.new.items ≡ out.old.items ++ row_line (statement_row statement.now)) }
{
    let Statement::Rmw {
        target,
        op,
        at,
        in1,
        in2,
        prev,
        org,
    } = statement
    else {
        unreachable!()
    };
    values::put(out, b"rmw")?;
    values::number(out, *target)?;
    operation(out, *op, *at, *in1, *in2)?;
    values::number(out, *prev)?;
    values::counter(out, *org)
}
