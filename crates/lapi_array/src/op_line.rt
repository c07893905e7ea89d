//! A line of an operation.

ghost use Rattle.std.specs.Prelude.{◌≡◌};
ghost use Rattle.lapi_base.specs.Input.Forms.{run};
ghost use Rattle.lapi_script.specs.Gives.{Gives};
ghost use Rattle.lapi_array.specs.PlanReading.{set_form, get_form, op_form, op_line_form};

use lapi_blocks::Op;
use lapi_script::reading::{LineFault, Words, end, hex, is_text, number, syntax, word};
use std::alloc::Global;

#[tactic(auto, unfolding(crate::specs::PlanReading::set_form))]
fn set(alloc: Global, words: &mut Words) -> Result<Op, LineFault>
    ensures { Gives (λ op. op) result (run set_form words.old) }
{
    let task = number(words)?;
    let row = number(words)?;
    let col = number(words)?;
    let rows = number(words)?;
    let cols = number(words)?;
    let values = hex(alloc, words)?;
    end(words)?;
    Ok(Op::Set {
        task,
        row,
        col,
        rows,
        cols,
        values,
    })
}

#[tactic(auto, unfolding(crate::specs::PlanReading::get_form))]
fn get(words: &mut Words) -> Result<Op, LineFault>
    ensures { Gives (λ op. op) result (run get_form words.old) }
{
    let task = number(words)?;
    let row = number(words)?;
    let col = number(words)?;
    let rows = number(words)?;
    let cols = number(words)?;
    end(words)?;
    Ok(Op::Get {
        task,
        row,
        col,
        rows,
        cols,
    })
}

/// The operation that begins with this word.
fn op(alloc: Global, word: &[u8], words: &mut Words) -> Result<Op, LineFault>
    ensures { Gives (λ op. op) result (run (op_form word.now) words.old) }
{
    if is_text(word, b"set") {
        set(alloc, words)
    } else if is_text(word, b"get") {
        get(words)
    } else {
        Err(syntax())
    }
}

pub fn op_line(alloc: Global, words: &mut Words) -> Result<Op, LineFault>
    ensures { Gives (λ op. op) result (run op_line_form words.old) }
{
    let first = word(words)?;
    op(alloc, first, words)
}
