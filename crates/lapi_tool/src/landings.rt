//! The landings in a capture, from its bytes.

ghost use Rattle.std.specs.Prelude.{◌≡◌, ◌≢◌, ℕ, List, Option, [], Err, OnOk, OnErr};
ghost use Rattle.lapi_capture.specs.Reading.{IsReadingOf};
ghost use Rattle.lapi_io.specs.Causes.{Rose};
ghost use Rattle.lapi_tool.specs.Landings.{IsLanded, WasFed, fault_status, landings_answer};
ghost use Rattle.lapi_tool.specs.Outcomes.{CommandGives};

use crate::command::end;
use lapi_base::Status;
use lapi_capture::{FeedFault, LONGEST_CAPTURE, Reader, captures_are_read};
use lapi_io::{Failed, Sink, Source};
use lapi_report::{write_feed_fault, write_landings};
use std::alloc::Global;

/// Reads a capture to its end or its first fault, and answers its landings or that fault.
pub fn find_and_answer<S: Source, K: Sink>(alloc: Global, source: &mut S, sink: &mut K) -> Status
    ensures answer { IsLanded (S.left source.old) (S.left source.new) (K.held sink.old) (K.held sink.new) result }
    ensures source { result ≡ Status.SourceFault → Rose (S.faults source.old) (S.faults source.new) }
    ensures unwritten { result ≡ Status.SourceFault → sink.new ≡ sink.old }
    ensures sink { result ≡ Status.SinkFault → Rose (K.faults sink.old) (K.faults sink.new) }
    ensures room { K.room sink.new ≡ K.room sink.old }
{
    let mut reader = Reader::new(alloc);
    match feed_all(&mut reader, source) {
        Ok(()) => answer_reading(&reader, sink),
        Err(Failed) => Status::SourceFault,
    }
}

/// Feeds what a source has left, piece by piece, to its end or to the first fault.
fn feed_all<S: Source>(reader: &mut Reader, source: &mut S) -> Result<(), Failed>
    requires { IsReadingOf reader.old [] }
    ensures fed { OnOk result (WasFed reader.new (S.left source.old) (S.left source.new)) }
    ensures failed { OnErr result (Rose (S.faults source.old) (S.faults source.new)) }
{
    captures_are_read();
    let mut piece = [0u8; 4096];
    let mut fed = 0;
    while fed <= LONGEST_CAPTURE {
        match source.read(&mut piece) {
            Ok(0) => return Ok(()),
            Ok(n) => match reader.feed(&piece[..n]) {
                Ok(()) => fed += n,
                Err(_) => return Ok(()),
            },
            Err(Failed) => return Err(Failed),
        }
    }
    unreachable!()
}

/// Answers what a reader found.
fn answer_reading<K: Sink>(reader: &Reader, sink: &mut K) -> Status
    ensures answer { (left rest : Option (List ℕ)) → WasFed reader.now left rest
        → IsLanded left rest (K.held sink.old) (K.held sink.new) result }
    ensures source { result ≢ Status.SourceFault }
    ensures sink { result ≡ Status.SinkFault → Rose (K.faults sink.old) (K.faults sink.new) }
    ensures room { K.room sink.new ≡ K.room sink.old }
{
    match reader.end() {
        Ok(()) => end(
            Status::Ok,
            write_landings(reader.frames(), reader.landings(), sink),
        ),
        Err(FeedFault::Memory) => Status::Memory,
        Err(fault) => refuse(fault, sink),
    }
}

/// Answers a fault of the capture.
fn refuse<K: Sink>(fault: FeedFault, sink: &mut K) -> Status
    ensures answer { CommandGives (landings_answer (Err fault)) (K.held sink.old) (K.held sink.new) result }
    ensures source { result ≢ Status.SourceFault }
    ensures sink { result ≡ Status.SinkFault → Rose (K.faults sink.old) (K.faults sink.new) }
    ensures room { K.room sink.new ≡ K.room sink.old }
{
    end(status_of(fault), write_feed_fault(fault, sink))
}

fn status_of(fault: FeedFault) -> Status
    ensures status { result ≡ fault_status fault }
    ensures no_source { result ≢ Status.SourceFault }
    ensures no_sink { result ≢ Status.SinkFault }
{
    match fault {
        FeedFault::Bad { .. } => Status::Syntax,
        FeedFault::Limit { .. } => Status::Limit,
        FeedFault::Memory => Status::Memory,
    }
}
