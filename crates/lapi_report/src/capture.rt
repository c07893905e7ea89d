//! The bytes of a capture.

ghost use Rattle.std.specs.Prelude.{◌≡◌, ◌<◌, false, [], ◌∷◌, map, take, slice_get, IfErr};
ghost use Rattle.std.specs.List.{flat_map, zip};
ghost use Rattle.lapi_base.specs.Output.CaptureBytes.{bytes_of, capture_taken, entry_bytes, frame, frames_of};
ghost use Rattle.lapi_base.specs.Packet.Spelling.{spells_packet};
ghost use Rattle.lapi_base.specs.Record.Valid.{ValidAct};
ghost use Rattle.lapi_base.specs.Record.WorldView.{view_record};
ghost use Rattle.lapi_io.specs.Writes.{Writes};
ghost use Rattle.lapi_report.specs.CapturedLines.{cut_frame, taken_bytes, whole_frame};

use lapi_base::{Act, Bytes, CAPTURE_END, CAPTURE_MAGIC, Reply, WriteFault};
use lapi_io::{Failed, Sink, write_all};
use lapi_world::World;
use std::cmp;

/// Writes what the switch handed over in the lines taken: the capture of the world's record. It takes no memory.
pub fn write_capture<K: Sink>(world: &World, sink: &mut K) -> Result<(), WriteFault>
    requires { world.now.spent ≡ false }
    ensures written { Writes K.held K.faults K.room sink.old sink.new
        (capture_taken (view_record world.now) world.now.schedule world.now.taken) result }
    ensures only_failed { IfErr result (λ fault. fault ≡ WriteFault.Failed) }
{
    write_parts(world, sink)?;
    Ok(())
}

fn write_parts<K: Sink>(world: &World, sink: &mut K) -> Result<(), Failed>
    requires { world.now.spent ≡ false }
    ensures { Writes K.held K.faults K.room sink.old sink.new
        (capture_taken (view_record world.now) world.now.schedule world.now.taken) result }
{
    write_all(sink, &CAPTURE_MAGIC)?;
    write_lines(world, world.taken(), world.replies(), sink)?;
    write_all(sink, &[CAPTURE_END])
}

fn write_lines<K: Sink>(
    world: &World,
    taken: &[u32],
    replies: &[Reply],
    sink: &mut K,
) -> Result<(), Failed>
    requires { world.now.spent ≡ false }
    ensures { Writes K.held K.faults K.room sink.old sink.new
        (flat_map (taken_bytes (view_record world.now) world.now.schedule) (zip taken.now replies.now)) result }
{
    for (n, reply) in taken.iter().zip(replies) {
        write_line(world, *n, *reply, sink)?;
    }
    Ok(())
}

/// What was handed over in line `n` of the schedule.
#[tactic(auto, using(crate::proofs::Frames::line_valid))]
fn write_line<K: Sink>(world: &World, n: u32, reply: Reply, sink: &mut K) -> Result<(), Failed>
    requires { world.now.spent ≡ false }
    ensures { Writes K.held K.faults K.room sink.old sink.new
        (taken_bytes (view_record world.now) world.now.schedule (n, reply)) result }
{
    match world.schedule().get(n as usize) {
        Some(line) => write_act(world, &line.act, reply, sink),
        None => Ok(()),
    }
}

fn write_act<K: Sink>(world: &World, act: &Act, reply: Reply, sink: &mut K) -> Result<(), Failed>
    requires spent { world.now.spent ≡ false }
    requires act { ValidAct world.now.script spells_packet act.now }
    ensures { Writes K.held K.faults K.room sink.old sink.new
        (bytes_of (frames_of (view_record world.now) act.now reply)) result }
{
    match act {
        Act::Deliver { a, b, k } => match reply {
            Reply::Did => write_entry(world, *a, *b, *k, sink),
            Reply::Blocked | Reply::Absent | Reply::Idle | Reply::Busy | Reply::Bad(_) => Ok(()),
        },
        Act::Cut { a, b, k, n } => match reply {
            Reply::Bad(_) => write_cut(world, *a, *b, *k, *n, sink),
            Reply::Did | Reply::Blocked | Reply::Absent | Reply::Idle | Reply::Busy => Ok(()),
        },
        Act::Inject { a, b, bytes } => write_injected(*a, *b, bytes.as_slice(), sink),
        Act::Step(_) | Act::Poll(_) | Act::Tick(_) | Act::Begin { .. } | Act::End { .. } => Ok(()),
    }
}

/// Entry `k`, whole.
fn write_entry<K: Sink>(world: &World, a: u32, b: u32, k: u32, sink: &mut K) -> Result<(), Failed>
    requires spent { world.now.spent ≡ false }
    requires a { a < world.now.script.tasks }
    requires b { b < world.now.script.tasks }
    ensures { Writes K.held K.faults K.room sink.old sink.new
        (bytes_of (map (frame a b) (entry_bytes (view_record world.now) a b k))) result }
{
    write_whole(a, b, world.wire(a, b), k, sink)
}

/// The first `n` bytes of entry `k`.
fn write_cut<K: Sink>(
    world: &World,
    a: u32,
    b: u32,
    k: u32,
    n: u32,
    sink: &mut K,
) -> Result<(), Failed>
    requires spent { world.now.spent ≡ false }
    requires a { a < world.now.script.tasks }
    requires b { b < world.now.script.tasks }
    ensures { Writes K.held K.faults K.room sink.old sink.new
        (bytes_of (map (λ bytes. frame a b (take n bytes)) (entry_bytes (view_record world.now) a b k))) result }
{
    write_front(a, b, world.wire(a, b), k, n, sink)
}

fn write_injected<K: Sink>(a: u32, b: u32, bytes: &[u8], sink: &mut K) -> Result<(), Failed>
    ensures { Writes K.held K.faults K.room sink.old sink.new (bytes_of (frame a b bytes.now ∷ [])) result }
{
    write_frame(a, b, bytes, sink)
}

fn write_whole<K: Sink>(
    a: u32,
    b: u32,
    entries: &[Bytes],
    k: u32,
    sink: &mut K,
) -> Result<(), Failed>
    ensures { Writes K.held K.faults K.room sink.old sink.new (whole_frame a b (slice_get entries.now k)) result }
{
    match entries.get(k as usize) {
        Some(entry) => write_frame(a, b, entry.as_slice(), sink),
        None => Ok(()),
    }
}

fn write_front<K: Sink>(
    a: u32,
    b: u32,
    entries: &[Bytes],
    k: u32,
    n: u32,
    sink: &mut K,
) -> Result<(), Failed>
    ensures { Writes K.held K.faults K.room sink.old sink.new (cut_frame a b n (slice_get entries.now k)) result }
{
    match entries.get(k as usize) {
        Some(entry) => write_frame(a, b, front_of(entry.as_slice(), n), sink),
        None => Ok(()),
    }
}

#[tactic(auto, using(crate::proofs::Frames::taken_front))]
fn front_of(bytes: &[u8], n: u32) -> &[u8]
    ensures { result.now ≡ take n bytes.now }
{
    let (front, _) = bytes.split_at(cmp::min(n as usize, bytes.len()));
    front
}

fn write_frame<K: Sink>(a: u32, b: u32, bytes: &[u8], sink: &mut K) -> Result<(), Failed>
    ensures { Writes K.held K.faults K.room sink.old sink.new (frame a b bytes.now) result }
{
    let size = bytes.len();
    let front = [
        (a % 256) as u8,
        (b % 256) as u8,
        (size / 256 % 256) as u8,
        (size % 256) as u8,
    ];
    write_all(sink, &front)?;
    write_all(sink, bytes)
}
