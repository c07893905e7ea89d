//! The lines of a journal.

ghost use Rattle.std.specs.Prelude.{◌≡◌, ◌≤◌, ◌+◌, ◌++◌, length, codes};
ghost use Rattle.lapi_base.specs.Output.JournalText.{event_line};
ghost use Rattle.lapi_base.specs.Output.TextParts.{dotted, message_text};

use crate::parts::{add_dotted, add_message, add_refusal};
use crate::text_line::TextLine;
use lapi_base::{Event, MsgName};

/// Leaves an event's line in `line`.
pub(crate) fn event_line(event: Event, line: &mut TextLine)
    ensures { line.new ≡ event_line event }
{
    match event {
        Event::Issue { task, statement } => begin_dotted("issue ", task, statement, line),
        Event::Refuse {
            task,
            statement,
            why,
        } => {
            begin_dotted("refuse ", task, statement, line);
            line.text(" ");
            add_refusal(why, line);
        }
        Event::Enter { task, statement } => begin_dotted("enter ", task, statement, line),
        Event::Pass { task, statement } => begin_dotted("pass ", task, statement, line),
        Event::Copy(name) => begin_message("copy ", name, line),
        Event::Head(name) => begin_dotted("head ", name.origin, name.statement, line),
        Event::Land(name) => begin_message("land ", name, line),
        Event::Begin { name, task, worker } => begin_job("begin ", name, task, worker, line),
        Event::End { name, task, worker } => begin_job("end ", name, task, worker, line),
    }
    line.text("\n");
}

/// Begins a line with a word and a number of a task.
fn begin_dotted(word: &str, task: u32, number: u32, line: &mut TextLine)
    requires { length word.now ≤ 10 }
    ensures text { line.new ≡ word.now ++ dotted task number }
    ensures short { length line.new ≤ length word.now + 41 }
{
    line.begin(word);
    add_dotted(task, number, line);
}

fn begin_message(word: &str, name: MsgName, line: &mut TextLine)
    requires { length word.now ≤ 10 }
    ensures text { line.new ≡ word.now ++ message_text name }
    ensures short { length line.new ≤ length word.now + 67 }
{
    line.begin(word);
    add_message(name, line);
}

/// The statement whose job it is, and the worker that runs it.
fn begin_job(word: &str, name: MsgName, task: u32, worker: u32, line: &mut TextLine)
    requires { length word.now ≤ 10 }
    ensures text { line.new ≡ word.now ++ (dotted name.origin name.statement ++ codes " " ++ dotted task worker) }
    ensures short { length line.new ≤ length word.now + 83 }
{
    begin_dotted(word, name.origin, name.statement, line);
    line.text(" ");
    add_dotted(task, worker, line);
}
