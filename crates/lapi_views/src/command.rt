ghost use Rattle.std.specs.Prelude.{◌≡◌, ◌≢◌, ℕ, List, Option, map, IsErrOf};
ghost use Rattle.lapi_base.specs.Input.Reading.{read};
ghost use Rattle.lapi_base.specs.Output.CommandAnswers.{input_answer};
ghost use Rattle.lapi_base.specs.Packet.Spelling.{spells_packet};
ghost use Rattle.lapi_base.specs.Record.Valid.{ValidScript, ValidSchedule};
ghost use Rattle.lapi_handlers.specs.Handlers.{rules_of};
ghost use Rattle.lapi_io.specs.Causes.{Rose};
ghost use Rattle.lapi_io.specs.Writes.{Wrote};
ghost use Rattle.lapi_views.specs.Answered.{CommandGives, IsAnswered, IsToldOf, asked_text, packets_text, refused_answer};
ghost use Rattle.lapi_views.specs.SinkWrites.{WritesWithMemory};
ghost use Rattle.lapi_views.specs.Words.{asked_for};

use crate::asked::Asked;
use crate::chart::write_chart;
use crate::fault::{status_of, write_fault};
use crate::pcap::write_pcap;
use crate::performed::performed;
use crate::text::write_text;
use crate::words::asked_for;
use lapi_base::{Input, LONGEST_INPUT, ReadFault, Status, Which, WriteFault};
use lapi_handlers::Handlers;
use lapi_io::{ReadAll, Sink, Source, read_all};
use lapi_parts::lines_are_taken;
use lapi_script::read_input;
use std::alloc::Global;

/// What is told of an input with more bytes than that.
const TOO_LONG: ReadFault = ReadFault::Limit {
    which: Which::Input,
    line: 0,
};

const USAGE: &str = "usage: lapi_view pcap | chart [--from LINE] [--to LINE]\n";

/// Does what the words say, which are the arguments after the program's name: reads an input, performs every line of its
/// schedule with these handlers, and writes the packets that the switch handed over, or the chart of some lines.
///
/// All text goes to the sink, that of a refusal too.
pub fn run<S: Source, K: Sink>(
    alloc: Global,
    words: &Vec<String>,
    source: &mut S,
    sink: &mut K,
    handlers: &Handlers,
) -> Status
    // The status and the text that are defined for the words and the input, or a front of that text.
    ensures answer { IsAnswered (rules_of handlers.now) (asked_for (map (λ word. word.bytes.items) words.now.items))
        (S.left source.old) (S.left source.new) (K.held sink.old) (K.held sink.new) result }
    // A fault is answered only where its count rose.
    ensures source { result ≡ Status.SourceFault → Rose (S.faults source.old) (S.faults source.new) }
    ensures unwritten { result ≡ Status.SourceFault → sink.new ≡ sink.old }
    ensures sink { result ≡ Status.SinkFault → Rose (K.faults sink.old) (K.faults sink.new) }
    ensures room { K.room sink.new ≡ K.room sink.old }
{
    match asked_for(words) {
        Some(asked) => read_and_answer(alloc, asked, source, sink, handlers),
        None => end(Status::Usage, write_text(USAGE, sink)),
    }
}

/// Reads the whole source, and answers what was read.
fn read_and_answer<S: Source, K: Sink>(
    alloc: Global,
    asked: Asked,
    source: &mut S,
    sink: &mut K,
    handlers: &Handlers,
) -> Status
    ensures answer { IsToldOf (asked_text (rules_of handlers.now) asked) (S.left source.old) (S.left source.new)
        (K.held sink.old) (K.held sink.new) result }
    ensures source { result ≡ Status.SourceFault → Rose (S.faults source.old) (S.faults source.new) }
    ensures unwritten { result ≡ Status.SourceFault → sink.new ≡ sink.old }
    ensures sink { result ≡ Status.SinkFault → Rose (K.faults sink.old) (K.faults sink.new) }
    ensures room { K.room sink.new ≡ K.room sink.old }
{
    match read_all(alloc, source, LONGEST_INPUT) {
        Ok(bytes) => answer_input(alloc, asked, bytes.as_slice(), sink, handlers),
        Err(ReadAll::Long) => refuse(alloc, TOO_LONG, sink),
        Err(ReadAll::Failed) => Status::SourceFault,
        Err(ReadAll::Memory) => Status::Memory,
    }
}

/// Answers bytes that are no more than an input may have.
fn answer_input<K: Sink>(
    alloc: Global,
    asked: Asked,
    bytes: &[u8],
    sink: &mut K,
    handlers: &Handlers,
) -> Status
    ensures answer { CommandGives (input_answer (asked_text (rules_of handlers.now) asked) (read bytes.now))
        (K.held sink.old) (K.held sink.new) result }
    ensures source { result ≢ Status.SourceFault }
    ensures sink { result ≡ Status.SinkFault → Rose (K.faults sink.old) (K.faults sink.new) }
    ensures room { K.room sink.new ≡ K.room sink.old }
{
    match read_input(alloc, bytes) {
        Ok(input) => end(Status::Ok, write_asked(alloc, asked, input, sink, handlers)),
        Err(fault) => refuse(alloc, fault, sink),
    }
}

/// Writes what was asked for of an input.
fn write_asked<K: Sink>(
    alloc: Global,
    asked: Asked,
    input: Input,
    sink: &mut K,
    handlers: &Handlers,
) -> Result<(), WriteFault>
    requires script { ValidScript input.script }
    requires schedule { ValidSchedule input.script spells_packet input.schedule }
    ensures { WritesWithMemory K.held K.faults K.room sink.old sink.new
        (asked_text (rules_of handlers.now) asked input) result }
{
    match asked {
        Asked::Packets => write_packets(alloc, input, sink, handlers),
        Asked::Chart(part) => write_chart(alloc, input, part, sink, handlers),
    }
}

/// Writes the packets that were handed over in all lines of an input.
fn write_packets<K: Sink>(
    alloc: Global,
    input: Input,
    sink: &mut K,
    handlers: &Handlers,
) -> Result<(), WriteFault>
    requires script { ValidScript input.script }
    requires schedule { ValidSchedule input.script spells_packet input.schedule }
    ensures { WritesWithMemory K.held K.faults K.room sink.old sink.new
        (packets_text (rules_of handlers.now) input) result }
{
    lines_are_taken();
    let world = performed(alloc, input, handlers)?;
    write_pcap(&world, sink)
}

/// Answers a fault of the input.
fn refuse<K: Sink>(alloc: Global, fault: ReadFault, sink: &mut K) -> Status
    ensures answer { CommandGives (refused_answer fault) (K.held sink.old) (K.held sink.new) result }
    ensures source { result ≢ Status.SourceFault }
    ensures sink { result ≡ Status.SinkFault → Rose (K.faults sink.old) (K.faults sink.new) }
    ensures room { K.room sink.new ≡ K.room sink.old }
{
    end(status_of(fault), write_fault(alloc, fault, sink))
}

/// The status, unless its text wasn't written whole.
fn end(status: Status, written: Result<(), WriteFault>) -> Status
    ensures answer { (held now : Option (List ℕ)) (text : List ℕ) → Wrote held now text written
        → CommandGives (record { status = status; text = text }) held now result }
    ensures source { result ≡ Status.SourceFault → status ≡ Status.SourceFault }
    ensures sink { status ≢ Status.SinkFault → result ≡ Status.SinkFault → IsErrOf written WriteFault.Failed }
{
    match written {
        Ok(()) => status,
        Err(WriteFault::Failed) => Status::SinkFault,
        Err(WriteFault::Memory) => Status::Memory,
    }
}
