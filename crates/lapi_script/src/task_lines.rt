//! The lines of the tasks.

ghost use Rattle.std.specs.Prelude.{◌≡◌};
ghost use Rattle.lapi_base.specs.Input.Forms.{run, task_line_form};
ghost use Rattle.lapi_script.specs.TaskLines.{HoldsTaskLine};

use crate::fault::LineFault;
use crate::fields::{end, number, word};
use crate::statements::{self, ReadStatement};
use crate::words::{Words, is_text};
use lapi_base::Statement;
use std::alloc::Global;

/// A line among the tasks' statements.
#[derive(Debug, Drop)]
pub(crate) enum TaskLine {
    Task(u32),
    Schedule,
    Statement(Statement),
    /// A statement of the right form, of which a vector has more than 16 pieces.
    TooManyPieces,
}

impl From<ReadStatement> for TaskLine {
    ghost use Rattle.lapi_script.specs.TaskLines.{IsDone};

    ghost from_gives = { IsDone };

    fn from(statement: ReadStatement) -> TaskLine {
        match statement {
            ReadStatement::Held(statement) => TaskLine::Statement(statement),
            ReadStatement::TooManyPieces => TaskLine::TooManyPieces,
        }
    }
}

#[tactic(auto, unfolding(lapi_base::specs::Input::Forms::task_line_form), using(lapi_base::proofs::Runs::run_statement, crate::proofs::TaskLineSteps::does))]
pub(crate) fn task_line(alloc: Global, words: &mut Words) -> Result<TaskLine, LineFault>
    ensures { HoldsTaskLine result (run task_line_form words.old) }
{
    let first = word(words)?;
    if is_text(first, b"task") {
        let task = number(words)?;
        end(words)?;
        Ok(TaskLine::Task(task))
    } else if is_text(first, b"schedule") {
        end(words)?;
        Ok(TaskLine::Schedule)
    } else {
        Ok(TaskLine::from(statements::read(alloc, first, words)?))
    }
}
