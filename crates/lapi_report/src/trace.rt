ghost use Rattle.std.specs.Prelude.{◌≡◌, ◌≤◌, ◌+◌, ◌++◌, false, length, IfErr};
ghost use Rattle.lapi_base.specs.Record.WorldView.{view_record};
ghost use Rattle.lapi_base.specs.Output.TraceText.{reply_text, trace_line, taken_text, trace_text};
ghost use Rattle.lapi_io.specs.Writes.{Writes};

use crate::act::add_act;
use crate::parts::reason_number;
use crate::text_line::TextLine;
use lapi_base::{Line, Reply, WriteFault};
use lapi_io::{Failed, Sink};
use lapi_world::World;

/// Writes each line taken, as it is written in a schedule, with its reply. It takes no memory.
pub fn write_trace<K: Sink>(world: &World, sink: &mut K) -> Result<(), WriteFault>
    requires { world.now.spent ≡ false }
    ensures written { Writes K.held K.faults K.room sink.old sink.new
        (trace_text world.now.schedule world.now.taken (view_record world.now).replies) result }
    ensures only_failed { IfErr result (λ fault. fault ≡ WriteFault.Failed) }
{
    write_lines(world.schedule(), world.taken(), world.replies(), sink)?;
    Ok(())
}

#[tactic(auto, unfolding(lapi_base::specs::Output::TraceText::trace_text))]
pub(crate) fn write_lines<K: Sink>(
    schedule: &[Line],
    taken: &[u32],
    replies: &[Reply],
    sink: &mut K,
) -> Result<(), Failed>
    ensures { Writes K.held K.faults K.room sink.old sink.new
        (trace_text schedule.now taken.now replies.now) result }
{
    let mut text = TextLine::new();
    for (n, reply) in taken.iter().zip(replies) {
        write_taken(schedule, *n, *reply, &mut text, sink)?;
    }
    Ok(())
}

/// Line `n` of the schedule and its reply.
fn write_taken<K: Sink>(
    schedule: &[Line],
    n: u32,
    reply: Reply,
    text: &mut TextLine,
    sink: &mut K,
) -> Result<(), Failed>
    ensures { Writes K.held K.faults K.room sink.old sink.new (taken_text schedule.now (n, reply)) result }
{
    match schedule.get(n as usize) {
        Some(line) => write_line(line, reply, text, sink),
        None => Ok(()),
    }
}

fn write_line<K: Sink>(
    line: &Line,
    reply: Reply,
    text: &mut TextLine,
    sink: &mut K,
) -> Result<(), Failed>
    ensures { Writes K.held K.faults K.room sink.old sink.new (trace_line line.now reply) result }
{
    text.begin("");
    text.number(u64::from(line.lane));
    text.text(" ");
    add_act(&line.act, text, sink)?;
    text.text(" : ");
    add_reply(reply, text);
    text.text("\n");
    text.write(sink)
}

fn add_reply(reply: Reply, line: &mut TextLine)
    requires { length line.old + 50 ≤ 4096 }
    ensures text { line.new ≡ line.old ++ reply_text reply }
    ensures room { length line.new ≤ length line.old + 50 }
{
    match reply {
        Reply::Did => line.text("did"),
        Reply::Blocked => line.text("blocked"),
        Reply::Absent => line.text("absent"),
        Reply::Idle => line.text("idle"),
        Reply::Busy => line.text("busy"),
        Reply::Bad(bad) => {
            line.text("bad ");
            line.number(u64::from(bad.place));
            line.text(" ");
            line.number(reason_number(bad.reason));
        }
    }
}
