ghost use Rattle.std.specs.Prelude.{◌≡◌};
ghost use Rattle.lapi_base.specs.Output.CommandAnswers.{which_name};
ghost use Rattle.lapi_views.specs.SinkWrites.{WritesWithMemory};
ghost use Rattle.lapi_views.specs.Answered.{refused_answer};

use crate::text::write_text;
use lapi_base::{ReadFault, Status, Which, WriteFault};
use lapi_io::Sink;
use std::alloc::Global;

/// The status of a fault of the input.
pub fn status_of(fault: ReadFault) -> Status
    ensures { result ≡ (refused_answer fault).status }
{
    match fault {
        ReadFault::Syntax { .. } => Status::Syntax,
        ReadFault::Limit { .. } => Status::Limit,
        ReadFault::Memory => Status::Memory,
    }
}

/// Writes what a user is told of it.
#[tactic(auto, using(crate::proofs::Unwritten::nothing_written))]
pub fn write_fault<K: Sink>(alloc: Global, fault: ReadFault, sink: &mut K) -> Result<(), WriteFault>
    ensures { WritesWithMemory K.held K.faults K.room sink.old sink.new (refused_answer fault).text result }
{
    match fault {
        ReadFault::Syntax { line } => {
            let Ok(text) = format!(in alloc; "syntax {line}\n") else {
                return Err(WriteFault::Memory);
            };
            write_text(text.as_str(), sink)
        }
        ReadFault::Limit { which, line } => {
            let name = name_of(which);
            let Ok(text) = format!(in alloc; "limit {name} {line}\n") else {
                return Err(WriteFault::Memory);
            };
            write_text(text.as_str(), sink)
        }
        ReadFault::Memory => Ok(()),
    }
}

fn name_of(which: Which) -> &'static str
    ensures { result.now ≡ which_name which }
{
    match which {
        Which::Input => "input",
        Which::Tasks => "tasks",
        Which::Memory => "memory",
        Which::Counters => "counters",
        Which::Workers => "workers",
        Which::Statements => "statements",
        Which::Lines => "lines",
        Which::Lane => "lane",
        Which::Pieces => "pieces",
        Which::Bytes => "bytes",
        Which::Events => "events",
        Which::Grid => "grid",
        Which::Block => "block",
        Which::Ops => "ops",
        Which::Patch => "patch",
        Which::Range => "range",
    }
}
