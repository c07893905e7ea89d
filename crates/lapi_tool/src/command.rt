ghost use Rattle.std.specs.Prelude.{◌≡◌, ◌≢◌, ℕ, List, Option, Some, map, IsErrOf};
ghost use Rattle.lapi_base.specs.declared.command.Command.TheVariants as commands;
ghost use Rattle.lapi_base.specs.declared.command.View.TheVariants.{Report};
ghost use Rattle.lapi_base.specs.Output.CommandAnswers.{input_answer};
ghost use Rattle.lapi_base.specs.Output.Commands as commands_of;
ghost use Rattle.lapi_base.specs.Input.Reading.{read};
ghost use Rattle.lapi_handlers.specs.Handlers.{rules_of};
ghost use Rattle.lapi_io.specs.Causes.{Rose};
ghost use Rattle.lapi_io.specs.Writes.{Wrote};
ghost use Rattle.lapi_tool.specs.Answered.{IsAnswered, IsToldOf, IsReported, refused_answer};
ghost use Rattle.lapi_tool.specs.Outcomes.{CommandGives};
ghost use Rattle.lapi_tool.specs.Shown.{asked_text};

use crate::array::run_and_answer;
use crate::fault::{status_of, write_fault};
use crate::generated::{write_generated, write_sum};
use crate::landings::find_and_answer;
use crate::text::write_text;
use crate::verdict::audit_and_answer;
use crate::views::write_view;
use crate::words::command_of;
use lapi_base::{Command, LONGEST_INPUT, ReadFault, Status, View, Which, WriteFault};
use lapi_handlers::Handlers;
use lapi_io::{ReadAll, Sink, Source, read_all};
use lapi_laws::{delivered_is_final, journal_is_atomic, quiet_is_tested};
use lapi_report::write_packet;
use lapi_script::read_input;
use lapi_text::text_laws;
use std::alloc::Global;

/// What is told of an input with more bytes than that.
pub(crate) const TOO_LONG: ReadFault = ReadFault::Limit {
    which: Which::Input,
    line: 0,
};

pub(crate) const USAGE: &str =
    "usage: lapi run|journal|wire|trace|check|live|audit|capture|landings|array, lapi show HEX, lapi gen N, lapi sum N\n";

/// Does what the words say, which are the arguments after the program's name: reads an input, performs every
/// line of its schedule with these handlers and writes what is asked of it, tells the verdict on a journal, tells the
/// landings in a capture, runs a plan on a block array, shows a packet, or writes the input that a number generates or a
/// summary of its record.
///
/// All text goes to the sink, that of a refusal too.
pub fn run<S: Source, K: Sink>(
    alloc: Global,
    words: &Vec<String>,
    source: &mut S,
    sink: &mut K,
    handlers: &Handlers,
) -> Status
    // The status and the text that are defined for the words and the input, or a front of that text.
    ensures answer { IsAnswered (rules_of handlers.now)
        (commands_of.command_of (map (λ word. word.bytes.items) words.now.items))
        (S.left source.old) (S.left source.new) (K.held sink.old) (K.held sink.new) result }
    // The report is that of the atomic message machine, and all is final where it ends in `quiet yes`.
    ensures headline { commands_of.command_of (map (λ word. word.bytes.items) words.now.items)
        ≡ Some (commands.Read Report)
        → result ≡ Status.Ok
        → IsReported (rules_of handlers.now)
        (S.left source.old) (S.left source.new) (K.held sink.old) (K.held sink.new) }
    // A fault is answered only where its count rose.
    ensures source { result ≡ Status.SourceFault → Rose (S.faults source.old) (S.faults source.new) }
    ensures unwritten { result ≡ Status.SourceFault → sink.new ≡ sink.old }
    ensures sink { result ≡ Status.SinkFault → Rose (K.faults sink.old) (K.faults sink.new) }
    ensures room { K.room sink.new ≡ K.room sink.old }
{
    text_laws();
    journal_is_atomic();
    quiet_is_tested();
    delivered_is_final();
    match command_of(alloc, words) {
        Err(_) => Status::Memory,
        Ok(None) => end(Status::Usage, write_text(USAGE, sink)),
        Ok(Some(Command::Show(bytes))) => end(Status::Ok, write_packet(bytes.as_slice(), sink)),
        Ok(Some(Command::Gen(number))) => { end(Status::Ok, write_generated(alloc, number, sink)) }
        Ok(Some(Command::Sum(number))) => {
            end(Status::Ok, write_sum(alloc, number, sink, handlers))
        }
        Ok(Some(Command::Check)) => read_and_answer(alloc, None, source, sink, handlers),
        Ok(Some(Command::Audit)) => audit_and_answer(alloc, source, sink, handlers),
        Ok(Some(Command::Landings)) => find_and_answer(alloc, source, sink),
        Ok(Some(Command::Array)) => run_and_answer(alloc, source, sink, handlers),
        Ok(Some(Command::Read(view))) => read_and_answer(alloc, Some(view), source, sink, handlers),
    }
}

/// Reads the whole source, and answers what was read.
fn read_and_answer<S: Source, K: Sink>(
    alloc: Global,
    view: Option<View>,
    source: &mut S,
    sink: &mut K,
    handlers: &Handlers,
) -> Status
    ensures answer { IsToldOf (asked_text view (rules_of handlers.now)) (S.left source.old) (S.left source.new)
        (K.held sink.old) (K.held sink.new) result }
    ensures source { result ≡ Status.SourceFault → Rose (S.faults source.old) (S.faults source.new) }
    ensures unwritten { result ≡ Status.SourceFault → sink.new ≡ sink.old }
    ensures sink { result ≡ Status.SinkFault → Rose (K.faults sink.old) (K.faults sink.new) }
    ensures room { K.room sink.new ≡ K.room sink.old }
{
    match read_all(alloc, source, LONGEST_INPUT) {
        Ok(bytes) => answer_input(alloc, view, bytes.as_slice(), sink, handlers),
        Err(ReadAll::Long) => refuse(alloc, TOO_LONG, sink),
        Err(ReadAll::Failed) => Status::SourceFault,
        Err(ReadAll::Memory) => Status::Memory,
    }
}

/// Answers bytes that are no more than an input may have.
fn answer_input<K: Sink>(
    alloc: Global,
    view: Option<View>,
    bytes: &[u8],
    sink: &mut K,
    handlers: &Handlers,
) -> Status
    ensures answer { CommandGives (input_answer (asked_text view (rules_of handlers.now)) (read bytes.now))
        (K.held sink.old) (K.held sink.new) result }
    ensures source { result ≢ Status.SourceFault }
    ensures sink { result ≡ Status.SinkFault → Rose (K.faults sink.old) (K.faults sink.new) }
    ensures room { K.room sink.new ≡ K.room sink.old }
{
    match read_input(alloc, bytes) {
        Ok(input) => end(Status::Ok, write_view(alloc, view, input, sink, handlers)),
        Err(fault) => refuse(alloc, fault, sink),
    }
}

/// Answers a fault of the input.
pub(crate) fn refuse<K: Sink>(alloc: Global, fault: ReadFault, sink: &mut K) -> Status
    ensures answer { CommandGives (refused_answer fault) (K.held sink.old) (K.held sink.new) result }
    ensures source { result ≢ Status.SourceFault }
    ensures sink { result ≡ Status.SinkFault → Rose (K.faults sink.old) (K.faults sink.new) }
    ensures room { K.room sink.new ≡ K.room sink.old }
{
    end(status_of(fault), write_fault(alloc, fault, sink))
}

/// The status, unless its text wasn't written whole.
pub(crate) fn end(status: Status, written: Result<(), WriteFault>) -> Status
    ensures answer { (held now : Option (List ℕ)) (text : List ℕ) → Wrote held now text written
        → CommandGives (record { status = status; text = text }) held now result }
    ensures source { result ≡ Status.SourceFault → status ≡ Status.SourceFault }
    ensures sink { status ≢ Status.SinkFault → result ≡ Status.SinkFault → IsErrOf written WriteFault.Failed }
{
    match written {
        Ok(()) => status,
        Err(WriteFault::Failed) => Status::SinkFault,
        Err(WriteFault::Memory) => Status::Memory,
    }
}
