ghost use Rattle.std.specs.Prelude.{◌≡◌, ◌≤◌, length, map};
ghost use Rattle.std.specs.List as lists;
ghost use Rattle.std.specs.List.{AllByRecursion};
ghost use Rattle.lapi_base.specs.Output.CommandAnswers.{counts_line, counts_text};
ghost use Rattle.lapi_base.specs.Record.Valid.{ValidScript};
ghost use Rattle.lapi_report.specs.SinkWrites.{WritesWithMemory};
ghost use Rattle.lapi_tool.specs.Shown.{HasFew};

use crate::text::write_text;
use lapi_base::{Input, Statements, WriteFault};
use lapi_io::Sink;
use std::alloc::Global;

/// Writes how many tasks, statements and lines an input has.
pub fn write_counts<K: Sink>(alloc: Global, input: &Input, sink: &mut K) -> Result<(), WriteFault>
    requires { ValidScript input.now.script }
    ensures { WritesWithMemory K.held K.faults K.room sink.old sink.new (counts_text input.now) result }
{
    let statements = count_of(input.script.lists.as_slice());
    let lines = input.schedule.as_slice().len();
    write_line(alloc, input.script.tasks, statements, lines, sink)
}

#[tactic(auto, using(crate::proofs::Unwritten::nothing_written))]
fn write_line<K: Sink>(
    alloc: Global,
    tasks: u32,
    statements: u64,
    lines: usize,
    sink: &mut K,
) -> Result<(), WriteFault>
    ensures { WritesWithMemory K.held K.faults K.room sink.old sink.new (counts_line tasks statements lines) result }
{
    let Ok(text) = format!(in alloc; "ok tasks {tasks} statements {statements} lines {lines}\n")
    else {
        return Err(WriteFault::Memory);
    };
    write_text(text.as_str(), sink)
}

fn count_of(tasks: &[Statements]) -> u64
    requires few { length tasks.now ≤ 8 }
    requires short { AllByRecursion HasFew tasks.now }
    ensures { result ≡ lists.sum (map (λ list. length list) tasks.now) }
{
    let mut count = 0;
    for list in tasks {
        count += list.as_slice().len() as u64;
    }
    count
}
