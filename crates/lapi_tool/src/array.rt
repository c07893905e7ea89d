//! A plan of operations on a block array, from its bytes to what its tasks hold once it has run.

ghost use Rattle.std.specs.Prelude.{◌≡◌, ◌≢◌, ◌<◌, false, map, IfOk};
ghost use Rattle.lapi_array.specs.ArrayText.{array_text};
ghost use Rattle.lapi_array.specs.PlanReading as reading;
ghost use Rattle.lapi_base.specs.Record.Operations.{numbers_below};
ghost use Rattle.lapi_base.specs.Record.Values.{memory_bytes};
ghost use Rattle.lapi_base.specs.Record.WorldView.{view_record};
ghost use Rattle.lapi_blocks.specs.Plans.{ValidPlan};
ghost use Rattle.lapi_io.specs.Causes.{Rose};
ghost use Rattle.lapi_report.specs.SinkWrites.{WritesWithMemory};
ghost use Rattle.lapi_tool.specs.Arrays.{plan_answer, IsArrayTold};
ghost use Rattle.lapi_tool.specs.Outcomes.{CommandGives};

use crate::command::{TOO_LONG, end, refuse};
use crate::performed::performed;
use lapi_array::{compile, read_plan, runs_are_left, write_array};
use lapi_base::{Bytes, LONGEST_INPUT, Memory, Span, Status, WriteFault};
use lapi_blocks::{Plan, scripts_are_valid};
use lapi_handlers::Handlers;
use lapi_io::{ReadAll, Sink, Source, read_all};
use lapi_parts::lines_are_taken;
use lapi_world::World;
use std::alloc::Global;

/// Reads a plan, runs it with these handlers, and answers what its operations got and the array that they leave.
pub fn run_and_answer<S: Source, K: Sink>(
    alloc: Global,
    source: &mut S,
    sink: &mut K,
    handlers: &Handlers,
) -> Status
    ensures answer { IsArrayTold (S.left source.old) (S.left source.new) (K.held sink.old) (K.held sink.new) result }
    ensures source { result ≡ Status.SourceFault → Rose (S.faults source.old) (S.faults source.new) }
    ensures unwritten { result ≡ Status.SourceFault → sink.new ≡ sink.old }
    ensures sink { result ≡ Status.SinkFault → Rose (K.faults sink.old) (K.faults sink.new) }
    ensures room { K.room sink.new ≡ K.room sink.old }
{
    match read_all(alloc, source, LONGEST_INPUT) {
        Ok(bytes) => answer_plan(alloc, bytes.as_slice(), sink, handlers),
        Err(ReadAll::Long) => refuse(alloc, TOO_LONG, sink),
        Err(ReadAll::Failed) => Status::SourceFault,
        Err(ReadAll::Memory) => Status::Memory,
    }
}

/// Answers bytes that are no more than an input may have.
fn answer_plan<K: Sink>(alloc: Global, bytes: &[u8], sink: &mut K, handlers: &Handlers) -> Status
    ensures answer { CommandGives (plan_answer (reading.read_plan bytes.now)) (K.held sink.old) (K.held sink.new) result }
    ensures source { result ≢ Status.SourceFault }
    ensures sink { result ≡ Status.SinkFault → Rose (K.faults sink.old) (K.faults sink.new) }
    ensures room { K.room sink.new ≡ K.room sink.old }
{
    match read_plan(alloc, bytes) {
        Ok(plan) => end(Status::Ok, write_plan(alloc, &plan, sink, handlers)),
        Err(fault) => refuse(alloc, fault, sink),
    }
}

/// Runs a plan, and writes what its operations got and the array that they leave.
#[tactic(auto, using(crate::proofs::Unwritten::nothing_written))]
fn write_plan<K: Sink>(
    alloc: Global,
    plan: &Plan,
    sink: &mut K,
    handlers: &Handlers,
) -> Result<(), WriteFault>
    requires { ValidPlan plan.now }
    ensures { WritesWithMemory K.held K.faults K.room sink.old sink.new (array_text plan.now) result }
{
    lines_are_taken();
    scripts_are_valid();
    runs_are_left();
    let input = compile(alloc, plan)?;
    let world = performed(alloc, input, handlers)?;
    let memories = memories(alloc, &world)?;
    write_array(alloc, plan, memories.as_slice(), sink)
}

/// The memory of each task, as the lines taken left it.
fn memories(alloc: Global, world: &World) -> Result<Vec<Bytes>, Memory>
    requires { world.now.spent ≡ false }
    ensures { IfOk result (λ memories. memories.items ≡ map (memory_bytes world.now.script world.now.rules
        (view_record world.now).journal) (numbers_below world.now.script.tasks)) }
{
    let mut memories = Vec::new(alloc);
    for t in 0..world.script().tasks {
        memories.push(memory_of(alloc, world, t)?)?;
    }
    Ok(memories)
}

/// A copy of the memory of task `t`.
fn memory_of(alloc: Global, world: &World, t: u32) -> Result<Bytes, Memory>
    requires spent { world.now.spent ≡ false }
    requires task { t < world.now.script.tasks }
    ensures { IfOk result (λ memory. memory ≡ memory_bytes world.now.script world.now.rules
        (view_record world.now).journal t) }
{
    let memory = world.task(t).memory();
    let whole = Span {
        at: 0,
        len: memory.size(),
    };
    Bytes::from_slice(alloc, memory.read(&whole))
}
