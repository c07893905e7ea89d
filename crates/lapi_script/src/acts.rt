//! The lines of a schedule, read and written.

ghost use Rattle.std.specs.Prelude.{◌≡◌, ◌++◌, ◌∷◌, OnOk};
ghost use Rattle.std.specs.List.{flat_map};
ghost use Rattle.lapi_base.specs.Input.ActRows.{number_text, injected_text};
ghost use Rattle.lapi_base.specs.Input.Forms.{run, line_form, act_form, task_form, worker_form, deliver_form, cut_form, inject_form};
ghost use Rattle.lapi_base.specs.declared.schedule.Act.{Act};
ghost use Rattle.lapi_base.specs.declared.schedule.Act.TheVariants.{Step, Poll, Tick};
ghost use Rattle.lapi_base.specs.Input.Rows.{act_row, row_line};
ghost use Rattle.lapi_script.specs.Gives.{Gives};

use crate::fault::{LineFault, syntax};
use crate::fields::{end, number, optional_hex, word};
use crate::words::{Words, is_text};
use crate::write::values;
use lapi_base::{Act, Line, Memory};
use std::alloc::Global;

#[tactic(auto, unfolding(lapi_base::specs::Input::Forms::deliver_form))]
fn deliver(words: &mut Words) -> Result<Act, LineFault>
    ensures { Gives (λ act. act) result (run deliver_form words.old) }
{
    let a = number(words)?;
    let b = number(words)?;
    let k = number(words)?;
    end(words)?;
    Ok(Act::Deliver { a, b, k })
}

#[tactic(auto, unfolding(lapi_base::specs::Input::Forms::cut_form))]
fn cut(words: &mut Words) -> Result<Act, LineFault>
    ensures { Gives (λ act. act) result (run cut_form words.old) }
{
    let a = number(words)?;
    let b = number(words)?;
    let k = number(words)?;
    let n = number(words)?;
    end(words)?;
    Ok(Act::Cut { a, b, k, n })
}

#[tactic(auto, unfolding(lapi_base::specs::Input::Forms::inject_form))]
fn inject(alloc: Global, words: &mut Words) -> Result<Act, LineFault>
    ensures { Gives (λ act. act) result (run inject_form words.old) }
{
    let a = number(words)?;
    let b = number(words)?;
    let bytes = optional_hex(alloc, words)?;
    end(words)?;
    Ok(Act::Inject { a, b, bytes })
}

#[tactic(auto, unfolding(lapi_base::specs::Input::Forms::task_form))]
fn step(words: &mut Words) -> Result<Act, LineFault>
    ensures { Gives (λ act. act) result (run (task_form (λ t. Step t)) words.old) }
{
    let t = number(words)?;
    end(words)?;
    Ok(Act::Step(t))
}

#[tactic(auto, unfolding(lapi_base::specs::Input::Forms::task_form))]
fn poll(words: &mut Words) -> Result<Act, LineFault>
    ensures { Gives (λ act. act) result (run (task_form (λ t. Poll t)) words.old) }
{
    let t = number(words)?;
    end(words)?;
    Ok(Act::Poll(t))
}

#[tactic(auto, unfolding(lapi_base::specs::Input::Forms::task_form))]
fn tick(words: &mut Words) -> Result<Act, LineFault>
    ensures { Gives (λ act. act) result (run (task_form (λ t. Tick t)) words.old) }
{
    let t = number(words)?;
    end(words)?;
    Ok(Act::Tick(t))
}

#[tactic(auto, unfolding(lapi_base::specs::Input::Forms::worker_form))]
fn begin(words: &mut Words) -> Result<Act, LineFault>
    ensures { Gives (λ act. act) result (run (worker_form (λ t w. Act.Begin t w)) words.old) }
{
    let task = number(words)?;
    let worker = number(words)?;
    end(words)?;
    Ok(Act::Begin { task, worker })
}

#[tactic(auto, unfolding(lapi_base::specs::Input::Forms::worker_form))]
fn end_job(words: &mut Words) -> Result<Act, LineFault>
    ensures { Gives (λ act. act) result (run (worker_form (λ t w. Act.End t w)) words.old) }
{
    let task = number(words)?;
    let worker = number(words)?;
    end(words)?;
    Ok(Act::End { task, worker })
}

/// The act that begins with this word.
fn act(alloc: Global, word: &[u8], words: &mut Words) -> Result<Act, LineFault>
    ensures { Gives (λ act. act) result (run (act_form word.now) words.old) }
{
    if is_text(word, b"step") {
        step(words)
    } else if is_text(word, b"poll") {
        poll(words)
    } else if is_text(word, b"tick") {
        tick(words)
    } else if is_text(word, b"deliver") {
        deliver(words)
    } else if is_text(word, b"cut") {
        cut(words)
    } else if is_text(word, b"inject") {
        inject(alloc, words)
    } else if is_text(word, b"begin") {
        begin(words)
    } else if is_text(word, b"end") {
        end_job(words)
    } else {
        Err(syntax())
    }
}

#[tactic(auto, using(lapi_base::proofs::Runs::run_line))]
pub(crate) fn line(alloc: Global, words: &mut Words) -> Result<Line, LineFault>
    ensures { Gives (λ line. line) result (run line_form words.old) }
{
    let lane = number(words)?;
    let first = word(words)?;
    let act = act(alloc, first, words)?;
    Ok(Line { lane, act })
}

/// An act, behind a space.
pub(crate) fn write(alloc: Global, out: &mut Vec<u8>, act: &Act) -> Result<(), Memory>
    ensures { OnOk result (out.new.items ≡ out.old.items ++ 32 ∷ row_line (act_row act.now)) }
{
    let row = act.row();
    out.push(b' ')?;
    values::put(out, row.word.as_bytes())?;
    numbers(out, row.numbers.as_slice())?;
    injected(alloc, out, row.injected)
}

/// Each number, behind a space.
fn numbers(out: &mut Vec<u8>, numbers: &[u32]) -> Result<(), Memory>
    ensures { OnOk result (out.new.items ≡ out.old.items ++ flat_map number_text numbers.now) }
{
    for each in numbers {
        values::number(out, *each)?;
    }
    Ok(())
}

/// The bytes that are injected, if some are.
fn injected(alloc: Global, out: &mut Vec<u8>, injected: Option<&[u8]>) -> Result<(), Memory>
    ensures { OnOk result (out.new.items ≡ out.old.items ++ injected_text injected.entry) }
{
    match injected {
        None => Ok(()),
        Some(bytes) => values::optional_hex(alloc, out, bytes),
    }
}
