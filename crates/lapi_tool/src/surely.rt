//! Commands over bytes in memory, where nothing fails but for want of memory or of room.

ghost use Rattle.std.specs.Prelude.{◌≡◌, ◌≢◌, [], Some, None, map};
ghost use Rattle.lapi_base.specs.Output.Commands as commands_of;
ghost use Rattle.lapi_handlers.specs.Handlers.{rules_of};
ghost use Rattle.lapi_io.specs.MemSink.{held_by, room_of, fails_of};
ghost use Rattle.lapi_tool.specs.Answered.{IsAnswered};
ghost use Rattle.lapi_tool.specs.Surely.{GivesWholeWithin};

use crate::command::run;
use lapi_base::Status;
use lapi_handlers::Handlers;
use lapi_io::{CountSink, MemSink, SureSource};
use std::alloc::Global;

/// Does what [`run`] does with bytes in memory, and only counts what is written: neither can fail.
pub fn run_counted(
    alloc: Global,
    words: &Vec<String>,
    source: &mut SureSource,
    sink: &mut CountSink,
    handlers: &Handlers,
) -> Status
    ensures answer { IsAnswered (rules_of handlers.now)
        (commands_of.command_of (map (λ word. word.bytes.items) words.now.items))
        (Some source.old) (Some source.new) None None result }
    ensures sure_source { result ≢ Status.SourceFault }
    ensures sure_sink { result ≢ Status.SinkFault }
{
    run(alloc, words, source, sink, handlers)
}

/// Does what [`run`] does with bytes in memory, and holds what is written: where the sink has room for it, that is the
/// whole text with its status, unless memory ran out.
pub fn run_in_memory(
    alloc: Global,
    words: &Vec<String>,
    source: &mut SureSource,
    sink: &mut MemSink,
    handlers: &Handlers,
) -> Status
    requires { fails_of sink.old ≡ [] }
    ensures answer { IsAnswered (rules_of handlers.now)
        (commands_of.command_of (map (λ word. word.bytes.items) words.now.items))
        (Some source.old) (Some source.new) (Some (held_by sink.old)) (Some (held_by sink.new)) result }
    ensures sure_source { result ≢ Status.SourceFault }
    ensures whole { GivesWholeWithin (room_of sink.old) (held_by sink.old) (held_by sink.new) result }
{
    run(alloc, words, source, sink, handlers)
}
