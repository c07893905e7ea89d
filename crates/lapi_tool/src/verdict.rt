//! The verdict on a journal, from the bytes of a script and its events.

ghost use Rattle.std.specs.Prelude.{◌≡◌, ◌≢◌, ◌≤◌, ◌⊎◌, ℕ, Ok, IfOk, length};
ghost use Rattle.lapi_audit.specs.Rules.{IsVerdict};
ghost use Rattle.lapi_base.specs.Input.AuditReading as reading;
ghost use Rattle.lapi_base.specs.Input.AuditRows.{most_events};
ghost use Rattle.lapi_base.specs.Record.Valid.{ValidScript};
ghost use Rattle.lapi_handlers.specs.Handlers.{rules_of};
ghost use Rattle.lapi_io.specs.Causes.{Rose};
ghost use Rattle.lapi_report.specs.SinkWrites.{WritesWithMemory};
ghost use Rattle.lapi_tool.specs.Answered.{verdict_answer, AuditTells, IsAudited};
ghost use Rattle.lapi_tool.specs.Outcomes.{IsSilent};

use crate::command::{TOO_LONG, end, refuse};
use crate::text::write_text;
use lapi_audit::{Verdict, audit};
use lapi_base::{AuditInput, LONGEST_INPUT, Memory, ReadFault, Status, WriteFault};
use lapi_handlers::Handlers;
use lapi_io::{ReadAll, Sink, Source, read_all};
use lapi_script::read_audit;
use std::alloc::Global;

/// Reads the whole source, and answers the verdict on the events of its journal.
pub fn audit_and_answer<S: Source, K: Sink>(
    alloc: Global,
    source: &mut S,
    sink: &mut K,
    handlers: &Handlers,
) -> Status
    ensures answer { IsAudited (rules_of handlers.now) (S.left source.old) (S.left source.new)
        (K.held sink.old) (K.held sink.new) result }
    ensures source { result ≡ Status.SourceFault → Rose (S.faults source.old) (S.faults source.new) }
    ensures unwritten { result ≡ Status.SourceFault → sink.new ≡ sink.old }
    ensures sink { result ≡ Status.SinkFault → Rose (K.faults sink.old) (K.faults sink.new) }
    ensures room { K.room sink.new ≡ K.room sink.old }
{
    match read_all(alloc, source, LONGEST_INPUT) {
        Ok(bytes) => answer_audit(alloc, bytes.as_slice(), sink, handlers),
        Err(ReadAll::Long) => refuse(alloc, TOO_LONG, sink),
        Err(ReadAll::Failed) => Status::SourceFault,
        Err(ReadAll::Memory) => Status::Memory,
    }
}

/// Answers bytes that are no more than an input may have.
fn answer_audit<K: Sink>(alloc: Global, bytes: &[u8], sink: &mut K, handlers: &Handlers) -> Status
    ensures answer { IsSilent result (K.held sink.old) (K.held sink.new)
        ⊎ AuditTells (rules_of handlers.now) (reading.read_audit bytes.now) (K.held sink.old) (K.held sink.new) result }
    ensures source { result ≢ Status.SourceFault }
    ensures sink { result ≡ Status.SinkFault → Rose (K.faults sink.old) (K.faults sink.new) }
    ensures room { K.room sink.new ≡ K.room sink.old }
{
    match read_audit(alloc, bytes) {
        Ok(input) => answer_verdict(alloc, &input, sink, handlers),
        Err(ReadFault::Memory) => Status::Memory,
        Err(fault) => refuse(alloc, fault, sink),
    }
}

/// Answers the verdict, unless memory runs out.
fn answer_verdict<K: Sink>(
    alloc: Global,
    input: &AuditInput,
    sink: &mut K,
    handlers: &Handlers,
) -> Status
    requires script { ValidScript input.now.script }
    requires few { length input.now.journal ≤ most_events }
    ensures answer { IsSilent result (K.held sink.old) (K.held sink.new)
        ⊎ AuditTells (rules_of handlers.now) (Ok input.now) (K.held sink.old) (K.held sink.new) result }
    ensures source { result ≢ Status.SourceFault }
    ensures sink { result ≡ Status.SinkFault → Rose (K.faults sink.old) (K.faults sink.new) }
    ensures room { K.room sink.new ≡ K.room sink.old }
{
    match verdict_of(alloc, input, handlers) {
        Ok(verdict) => {
            let events = input.journal.as_slice().len();
            end(
                status_of(verdict),
                write_verdict(alloc, verdict, events, sink),
            )
        }
        Err(_) => Status::Memory,
    }
}

/// The verdict on the events, with these handlers.
fn verdict_of(alloc: Global, input: &AuditInput, handlers: &Handlers) -> Result<Verdict, Memory>
    requires script { ValidScript input.now.script }
    requires few { length input.now.journal ≤ most_events }
    ensures { IfOk result (IsVerdict input.now.script (rules_of handlers.now) input.now.journal) }
{
    let rules = handlers.rules(alloc)?;
    let headers = rules.headers.as_slice();
    let completions = rules.completions.as_slice();
    audit(
        alloc,
        &input.script,
        headers,
        completions,
        input.journal.as_slice(),
    )
}

fn status_of(verdict: Verdict) -> Status
    ensures status { (count : ℕ) → result ≡ (verdict_answer count verdict).status }
    ensures no_source { result ≢ Status.SourceFault }
    ensures no_sink { result ≢ Status.SinkFault }
{
    match verdict {
        Verdict::Atomic => Status::Ok,
        Verdict::Broken { .. } => Status::Broken,
    }
}

#[tactic(auto, using(crate::proofs::Unwritten::nothing_written))]
fn write_verdict<K: Sink>(
    alloc: Global,
    verdict: Verdict,
    events: usize,
    sink: &mut K,
) -> Result<(), WriteFault>
    ensures { WritesWithMemory K.held K.faults K.room sink.old sink.new (verdict_answer events verdict).text result }
{
    match verdict {
        Verdict::Atomic => {
            let Ok(text) = format!(in alloc; "atomic {events}\n") else {
                return Err(WriteFault::Memory);
            };
            write_text(text.as_str(), sink)
        }
        Verdict::Broken { rule, place } => {
            let Ok(text) = format!(in alloc; "broken A{rule} {place}\n") else {
                return Err(WriteFault::Memory);
            };
            write_text(text.as_str(), sink)
        }
    }
}
