//! What was read so far, and what a line adds to it.
//!
//! ```text
//! First -> Second -> Start -> Tasks (each task and its statements) -> Lines (each schedule line) -> Finished
//! ```

ghost use Rattle.std.specs.Prelude.{◌≡◌, false, Result, Ok};
ghost use Rattle.lapi_base.specs.declared.input.LineError.{LineError};
ghost use Rattle.lapi_base.specs.Input.Lines.{words_of};
ghost use Rattle.lapi_base.specs.Input.Forms.{and_then, run, line_form, task_line_form};
ghost use Rattle.lapi_base.specs.Input.Forms as forms;
ghost use Rattle.lapi_base.specs.declared.script.Script.{Script};
ghost use Rattle.lapi_base.specs.declared.statement.Statement.{Statement};
ghost use Rattle.lapi_base.specs.Input.Reading.{Lines, step, after, keeps_pieces, on_first_task, on_task_line, on_statement, on_line};
ghost use Rattle.lapi_script.specs.Gives.{Fails, Gives};
ghost use Rattle.lapi_script.specs.TaskLines.{HoldsTaskLine};
ghost use Rattle.lapi_script.specs.States.{state_of};

use crate::acts::line;
use crate::fault::{LineFault, limit, syntax};
use crate::heads::{head, sizes};
use crate::limits::{checked_sizes, keeps_bytes, keeps_injected, keeps_pieces, names_known};
use crate::scan::is_clean;
use crate::task_lines::{TaskLine, task_line};
use crate::words::{Words, is_remark};
use lapi_base::{Input, Line, Schedule, Script, Statement, Statements, Which, is_version};
use std::alloc::Global;
use std::mem;

/// The most statements of a task.
const MOST_STATEMENTS: usize = 512;

/// What was read so far, by which line is awaited.
#[derive(Debug, Drop)]
pub(crate) enum State {
    First,
    Second { layout: u32 },
    Start(Script),
    /// The script has the tasks before the current one.
    Tasks { script: Script, current: Statements },
    Lines { script: Script, schedule: Schedule },
    Finished(Input),
}

#[tactic(auto, using(crate::proofs::TaskLineSteps::too_many_pieces_first))]
fn on_first_task(alloc: Global, script: Script, row: TaskLine) -> Result<State, LineFault>
    ensures { (read : Result forms.TaskLine LineError) → HoldsTaskLine (Ok row) read
        → Gives state_of result (and_then read (on_first_task script)) }
{
    match row {
        TaskLine::Task(0) => Ok(State::Tasks {
            script,
            current: Statements::new(alloc),
        }),
        _ => Err(syntax()),
    }
}

fn on_statement(
    script: Script,
    mut current: Statements,
    statement: Statement,
) -> Result<State, LineFault>
    ensures { Gives state_of result (on_statement script current statement) }
{
    if current.as_slice().len() >= MOST_STATEMENTS {
        return Err(limit(Which::Statements));
    }
    if !keeps_pieces(&statement) {
        return Err(limit(Which::Pieces));
    }
    if !keeps_bytes(&statement) {
        return Err(limit(Which::Bytes));
    }
    current.push(statement)?;
    Ok(State::Tasks { script, current })
}

/// What is wrong with a statement behind these of which a vector has more than 16 pieces.
fn too_many_pieces(current: &Statements) -> LineFault
    ensures { (script : Script) (s : Statement) → keeps_pieces s ≡ false
        → Fails result (on_statement script current.now s) }
{
    if current.as_slice().len() >= MOST_STATEMENTS {
        return limit(Which::Statements);
    }
    limit(Which::Pieces)
}

fn on_task_line(
    alloc: Global,
    mut script: Script,
    current: Statements,
    row: TaskLine,
) -> Result<State, LineFault>
    ensures { (read : Result forms.TaskLine LineError) → HoldsTaskLine (Ok row) read
        → Gives state_of result (and_then read (on_task_line script current)) }
{
    let next = script.lists.as_slice().len() as u64 + 1;
    match row {
        TaskLine::Task(task) => {
            if u64::from(task) != next || task >= script.tasks {
                return Err(syntax());
            }
            script.lists.push(current)?;
            Ok(State::Tasks {
                script,
                current: Statements::new(alloc),
            })
        }
        TaskLine::Schedule => {
            if next != u64::from(script.tasks) {
                return Err(syntax());
            }
            script.lists.push(current)?;
            Ok(State::Lines {
                script,
                schedule: Schedule::new(alloc),
            })
        }
        TaskLine::Statement(statement) => on_statement(script, current, statement),
        TaskLine::TooManyPieces => Err(too_many_pieces(&current)),
    }
}

fn on_line(script: &Script, schedule: &mut Schedule, line: Line) -> Result<(), LineFault>
    ensures { Gives (λ _. Lines script.now schedule.new) result (on_line script.now schedule.old line) }
{
    if !names_known(script, &line.act) {
        return Err(syntax());
    }
    if schedule.as_slice().len() >= script.most_lines() {
        return Err(limit(Which::Lines));
    }
    if line.lane > 15 {
        return Err(limit(Which::Lane));
    }
    if !keeps_injected(&line.act) {
        return Err(limit(Which::Bytes));
    }
    schedule.push(line)?;
    Ok(())
}

/// What a line of the schedule adds, in its place.
fn schedule_line(
    alloc: Global,
    script: &Script,
    schedule: &mut Schedule,
    words: &mut Words,
) -> Result<(), LineFault>
    ensures { Gives (λ _. Lines script.now schedule.new) result
        (and_then (run line_form words.old) (on_line script.now schedule.old)) }
{
    on_line(script, schedule, line(alloc, words)?)
}

/// What the first line of the tasks adds. Its row is large, so it stands in a frame of its own.
#[inline(never)]
fn first_task_line(alloc: Global, script: Script, words: &mut Words) -> Result<State, LineFault>
    ensures { Gives state_of result (and_then (run task_line_form words.old) (on_first_task script)) }
{
    on_first_task(alloc, script, task_line(alloc, words)?)
}

/// What a further line of the tasks adds.
#[inline(never)]
fn next_task_line(
    alloc: Global,
    script: Script,
    current: Statements,
    words: &mut Words,
) -> Result<State, LineFault>
    ensures { Gives state_of result (and_then (run task_line_form words.old) (on_task_line script current)) }
{
    on_task_line(alloc, script, current, task_line(alloc, words)?)
}

/// What a line of these words adds.
#[tactic(auto, unfolding(lapi_base::specs::Input::Reading::step))]
pub(crate) fn step(alloc: Global, state: State, words: &mut Words) -> Result<State, LineFault>
    ensures { Gives state_of result (step (state_of state) words.old) }
{
    match state {
        State::First => {
            let layout = head(words)?;
            if !is_version(layout) {
                return Err(syntax());
            }
            Ok(State::Second { layout })
        }
        State::Second { layout } => {
            let script = checked_sizes(sizes(alloc, layout, words)?)?;
            Ok(State::Start(script))
        }
        State::Start(script) => first_task_line(alloc, script, words),
        State::Tasks { script, current } => next_task_line(alloc, script, current, words),
        State::Lines {
            script,
            mut schedule,
        } => {
            if words.are_only(b"done") {
                return Ok(State::Finished(Input { script, schedule }));
            }
            schedule_line(alloc, &script, &mut schedule, words)?;
            Ok(State::Lines { script, schedule })
        }
        State::Finished(_) => Err(syntax()),
    }
}

/// What a line adds.
#[tactic(auto, unfolding(lapi_base::specs::Input::Reading::after, lapi_base::specs::Input::Reading::step), using(crate::proofs::FirstWords::remark_skipped))]
pub(crate) fn after(alloc: Global, state: &mut State, line: &[u8]) -> Result<(), LineFault>
    ensures { Gives (λ _. state_of state.new) result (after (state_of state.old) line.now) }
{
    if !is_clean(line) {
        return Err(syntax());
    }
    if is_remark(line) {
        return Ok(());
    }
    let mut words = Words::new(line);
    if words.are_skipped() {
        return Ok(());
    }
    if let State::Lines { script, schedule } = state {
        if !words.are_only(b"done") {
            return schedule_line(alloc, script, schedule, &mut words);
        }
    }
    *state = step(alloc, mem::replace(state, State::First), &mut words)?;
    Ok(())
}
