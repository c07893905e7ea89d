//! The one command whose lanes run on threads of their own.

ghost use Rattle.std.specs.Prelude.{◌≡◌, ◌≢◌, ◌⊎◌, Ok, IfOk, map};
ghost use Rattle.lapi_base.specs.Input.Reading.{read};
ghost use Rattle.lapi_base.specs.Output.Commands as commands_of;
ghost use Rattle.lapi_base.specs.Packet.Spelling.{spells_packet};
ghost use Rattle.lapi_base.specs.Record.Lanes.{WorkersKeepLanes};
ghost use Rattle.lapi_base.specs.Record.Valid.{ValidScript, ValidSchedule};
ghost use Rattle.lapi_handlers.specs.Handlers.{rules_of};
ghost use Rattle.lapi_io.specs.Causes.{Rose};
ghost use Rattle.lapi_live.specs.Lanes.{lane_set};
ghost use Rattle.lapi_tool.specs.Live.{IsLiveAnswered, IsLiveTold, IsLiveReported, LiveTells, TellsLanes, HasRunLanes};
ghost use Rattle.lapi_tool.specs.Outcomes.{IsSilent};

use crate::command::{TOO_LONG, USAGE, end, refuse};
use crate::live_text::{write_clash, write_live};
use crate::text::write_text;
use lapi_base::{Input, LONGEST_INPUT, Memory, ReadFault, Status};
use lapi_handlers::Handlers;
use lapi_io::{ReadAll, Sink, Source, read_all};
use lapi_laws::journal_is_atomic;
use lapi_live::{Gate, LaneFault, LaneSet, lanes, run_world};
use lapi_parts::lines_are_taken;
use lapi_script::read_input;
use lapi_text::text_laws;
use lapi_world::World;
use std::alloc::Global;
use std::sync::Wait;
use std::thread::Threads;

/// Does what the word `live` says: reads an input, performs every line of its schedule with these handlers, each lane on
/// a thread of its own, and writes the lines in the order in which they were taken, and then the report. A lane passes
/// the gate between a Begin that gives it a job and the job's handler, for which no other lane waits.
///
/// All text goes to the sink, that of a refusal too. What is promised holds if it returns.
pub fn run_live<R: Threads + Wait + Sync, S: Source, K: Sink, G: Gate + Sync>(
    rt: &R,
    alloc: Global,
    words: &Vec<String>,
    source: &mut S,
    sink: &mut K,
    handlers: &Handlers,
    gate: &G,
) -> Status
    // The status and the text that are defined for the words, the input and some interleaving of its lanes, or a front
    // of that text.
    ensures answer { IsLiveAnswered (rules_of handlers.now)
        (commands_of.is_live (map (λ word. word.bytes.items) words.now.items))
        (S.left source.old) (S.left source.new) (K.held sink.old) (K.held sink.new) result }
    // The report is that of the atomic message machine, for the lines in the order in which they were taken.
    ensures headline { result ≡ Status.Ok → IsLiveReported (rules_of handlers.now)
        (S.left source.old) (S.left source.new) (K.held sink.old) (K.held sink.new) }
    // A fault is answered only where its count rose.
    ensures source { result ≡ Status.SourceFault → Rose (S.faults source.old) (S.faults source.new) }
    ensures unwritten { result ≡ Status.SourceFault → sink.new ≡ sink.old }
    ensures sink { result ≡ Status.SinkFault → Rose (K.faults sink.old) (K.faults sink.new) }
    ensures room { K.room sink.new ≡ K.room sink.old }
{
    text_laws();
    journal_is_atomic();
    lines_are_taken();
    if !is_live(words) {
        return end(Status::Usage, write_text(USAGE, sink));
    }
    read_and_run(rt, alloc, source, sink, handlers, gate)
}

/// Whether the one word is `live`.
#[tactic(auto, unfolding(lapi_base::specs::Output::Commands::is_live))]
fn is_live(words: &Vec<String>) -> bool
    ensures { result ≡ commands_of.is_live (map (λ word. word.bytes.items) words.now.items) }
{
    match words.as_slice() {
        [word] => word.as_str() == "live",
        _ => false,
    }
}

/// Reads the whole source, and answers what was read.
fn read_and_run<R: Threads + Wait + Sync, S: Source, K: Sink, G: Gate + Sync>(
    rt: &R,
    alloc: Global,
    source: &mut S,
    sink: &mut K,
    handlers: &Handlers,
    gate: &G,
) -> Status
    ensures answer { IsLiveTold (rules_of handlers.now) (S.left source.old) (S.left source.new)
        (K.held sink.old) (K.held sink.new) result }
    ensures source { result ≡ Status.SourceFault → Rose (S.faults source.old) (S.faults source.new) }
    ensures unwritten { result ≡ Status.SourceFault → sink.new ≡ sink.old }
    ensures sink { result ≡ Status.SinkFault → Rose (K.faults sink.old) (K.faults sink.new) }
    ensures room { K.room sink.new ≡ K.room sink.old }
{
    match read_all(alloc, source, LONGEST_INPUT) {
        Ok(bytes) => run_bytes(rt, alloc, bytes.as_slice(), sink, handlers, gate),
        Err(ReadAll::Long) => refuse(alloc, TOO_LONG, sink),
        Err(ReadAll::Failed) => Status::SourceFault,
        Err(ReadAll::Memory) => Status::Memory,
    }
}

/// Answers bytes that are no more than an input may have.
fn run_bytes<R: Threads + Wait + Sync, K: Sink, G: Gate + Sync>(
    rt: &R,
    alloc: Global,
    bytes: &[u8],
    sink: &mut K,
    handlers: &Handlers,
    gate: &G,
) -> Status
    ensures answer { IsSilent result (K.held sink.old) (K.held sink.new)
        ⊎ LiveTells (rules_of handlers.now) (read bytes.now) (K.held sink.old) (K.held sink.new) result }
    ensures source { result ≢ Status.SourceFault }
    ensures sink { result ≡ Status.SinkFault → Rose (K.faults sink.old) (K.faults sink.new) }
    ensures room { K.room sink.new ≡ K.room sink.old }
{
    match read_input(alloc, bytes) {
        Ok(input) => run_input(rt, alloc, input, sink, handlers, gate),
        Err(ReadFault::Memory) => Status::Memory,
        Err(fault) => refuse(alloc, fault, sink),
    }
}

/// Answers an input: runs its lanes, unless some clash.
fn run_input<R: Threads + Wait + Sync, K: Sink, G: Gate + Sync>(
    rt: &R,
    alloc: Global,
    input: Input,
    sink: &mut K,
    handlers: &Handlers,
    gate: &G,
) -> Status
    requires script { ValidScript input.script }
    requires schedule { ValidSchedule input.script spells_packet input.schedule }
    ensures answer { IsSilent result (K.held sink.old) (K.held sink.new)
        ⊎ LiveTells (rules_of handlers.now) (Ok input) (K.held sink.old) (K.held sink.new) result }
    ensures source { result ≢ Status.SourceFault }
    ensures sink { result ≡ Status.SinkFault → Rose (K.faults sink.old) (K.faults sink.new) }
    ensures room { K.room sink.new ≡ K.room sink.old }
{
    match lanes(alloc, input.schedule.as_slice()) {
        Ok(set) => run_set(rt, alloc, input, &set, sink, handlers, gate),
        Err(LaneFault::Clash { task, worker }) => {
            end(Status::LaneClash, write_clash(alloc, task, worker, sink))
        }
        Err(LaneFault::Memory) => Status::Memory,
    }
}

/// Runs these lanes, and tells what they did.
fn run_set<R: Threads + Wait + Sync, K: Sink, G: Gate + Sync>(
    rt: &R,
    alloc: Global,
    input: Input,
    set: &LaneSet,
    sink: &mut K,
    handlers: &Handlers,
    gate: &G,
) -> Status
    requires script { ValidScript input.script }
    requires schedule { ValidSchedule input.script spells_packet input.schedule }
    requires set { set.now ≡ lane_set input.schedule }
    requires apart { WorkersKeepLanes input.schedule }
    ensures answer { IsSilent result (K.held sink.old) (K.held sink.new)
        ⊎ TellsLanes (rules_of handlers.now) input (K.held sink.old) (K.held sink.new) result }
    ensures source { result ≢ Status.SourceFault }
    ensures sink { result ≡ Status.SinkFault → Rose (K.faults sink.old) (K.faults sink.new) }
    ensures room { K.room sink.new ≡ K.room sink.old }
{
    match world_after(rt, alloc, input, set, handlers, gate) {
        Ok(world) => end(Status::Ok, write_live(&world, sink)),
        Err(_) => Status::Memory,
    }
}

/// The world of an input after every line of its schedule, each lane on a thread of its own.
fn world_after<R: Threads + Wait + Sync, G: Gate + Sync>(
    rt: &R,
    alloc: Global,
    input: Input,
    set: &LaneSet,
    handlers: &Handlers,
    gate: &G,
) -> Result<World, Memory>
    requires script { ValidScript input.script }
    requires schedule { ValidSchedule input.script spells_packet input.schedule }
    requires set { set.now ≡ lane_set input.schedule }
    requires apart { WorkersKeepLanes input.schedule }
    ensures { IfOk result (HasRunLanes (rules_of handlers.now) input) }
{
    let first = World::new(alloc, input.script, input.schedule, handlers)?;
    let world = run_world(rt, alloc, first, handlers, set, gate)?;
    if world.spent() {
        return Err(Memory);
    }
    Ok(world)
}
