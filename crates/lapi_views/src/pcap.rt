//! The packets of a run in the pcap format.

ghost use Rattle.std.specs.Prelude.{◌≡◌, ◌<◌, ◌^◌, ◌++◌, false, [], ◌∷◌, map, take, length, slice_get, IfErr};
ghost use Rattle.std.specs.List.{flat_map, zip};
ghost use Rattle.lapi_base.specs.Output.CaptureBytes.{entry_bytes};
ghost use Rattle.lapi_base.specs.Packet.Spelling.{spells_packet};
ghost use Rattle.lapi_base.specs.Record.Valid.{ValidAct};
ghost use Rattle.lapi_base.specs.Record.WorldView.{view_record};
ghost use Rattle.lapi_io.specs.Writes.{Writes};
ghost use Rattle.lapi_views.specs.Pcap.{four, handed_by, pcap_bytes, pcap_record, taken_records};
ghost use Rattle.lapi_views.specs.PcapParts.{cut_record, whole_record};

use lapi_base::{Act, Bytes, Reply, WriteFault};
use lapi_io::{Failed, Sink, write_all};
use lapi_world::World;
use std::cmp;

/// What a file begins with: the format's number and version, no time zone, the most bytes of a packet, and the link type
/// that is left to users.
const HEAD: [u8; 24] = [
    0xa1, 0xb2, 0xc3, 0xd4, 0, 2, 0, 4, 0, 0, 0, 0, 0, 0, 0, 0, 0, 0, 0xff, 0xff, 0, 0, 0, 147,
];

/// Writes the packets that the switch handed over in the lines taken, each with the number of its line as its time.
/// It takes no memory.
pub fn write_pcap<K: Sink>(world: &World, sink: &mut K) -> Result<(), WriteFault>
    requires { world.now.spent ≡ false }
    ensures written { Writes K.held K.faults K.room sink.old sink.new
        (pcap_bytes (view_record world.now) world.now.schedule world.now.taken) result }
    ensures only_failed { IfErr result (λ fault. fault ≡ WriteFault.Failed) }
{
    write_parts(world, sink)?;
    Ok(())
}

fn write_parts<K: Sink>(world: &World, sink: &mut K) -> Result<(), Failed>
    requires { world.now.spent ≡ false }
    ensures { Writes K.held K.faults K.room sink.old sink.new
        (pcap_bytes (view_record world.now) world.now.schedule world.now.taken) result }
{
    write_all(sink, &HEAD)?;
    write_lines(world, world.taken(), world.replies(), sink)
}

fn write_lines<K: Sink>(
    world: &World,
    taken: &[u32],
    replies: &[Reply],
    sink: &mut K,
) -> Result<(), Failed>
    requires { world.now.spent ≡ false }
    ensures { Writes K.held K.faults K.room sink.old sink.new
        (flat_map (taken_records (view_record world.now) world.now.schedule) (zip taken.now replies.now)) result }
{
    for (n, reply) in taken.iter().zip(replies) {
        write_line(world, *n, *reply, sink)?;
    }
    Ok(())
}

/// What was handed over in line `n` of the schedule.
#[tactic(auto, using(crate::proofs::Packets::line_valid))]
fn write_line<K: Sink>(world: &World, n: u32, reply: Reply, sink: &mut K) -> Result<(), Failed>
    requires { world.now.spent ≡ false }
    ensures { Writes K.held K.faults K.room sink.old sink.new
        (taken_records (view_record world.now) world.now.schedule (n, reply)) result }
{
    match world.schedule().get(n as usize) {
        Some(line) => write_act(world, n, &line.act, reply, sink),
        None => Ok(()),
    }
}

fn write_act<K: Sink>(
    world: &World,
    n: u32,
    act: &Act,
    reply: Reply,
    sink: &mut K,
) -> Result<(), Failed>
    requires spent { world.now.spent ≡ false }
    requires act { ValidAct world.now.script spells_packet act.now }
    ensures { Writes K.held K.faults K.room sink.old sink.new
        (flat_map (pcap_record n) (handed_by (view_record world.now) act.now reply)) result }
{
    match act {
        Act::Deliver { a, b, k } => match reply {
            Reply::Did => write_entry(world, n, *a, *b, *k, sink),
            Reply::Blocked | Reply::Absent | Reply::Idle | Reply::Busy | Reply::Bad(_) => Ok(()),
        },
        Act::Cut { a, b, k, n: count } => match reply {
            Reply::Bad(_) => write_cut(world, n, *a, *b, *k, *count, sink),
            Reply::Did | Reply::Blocked | Reply::Absent | Reply::Idle | Reply::Busy => Ok(()),
        },
        Act::Inject { bytes, .. } => write_injected(n, bytes.as_slice(), sink),
        Act::Step(_) | Act::Poll(_) | Act::Tick(_) | Act::Begin { .. } | Act::End { .. } => Ok(()),
    }
}

/// Entry `k`, whole.
fn write_entry<K: Sink>(
    world: &World,
    n: u32,
    a: u32,
    b: u32,
    k: u32,
    sink: &mut K,
) -> Result<(), Failed>
    requires spent { world.now.spent ≡ false }
    requires a { a < world.now.script.tasks }
    requires b { b < world.now.script.tasks }
    ensures { Writes K.held K.faults K.room sink.old sink.new
        (flat_map (pcap_record n) (entry_bytes (view_record world.now) a b k)) result }
{
    write_whole(n, world.wire(a, b), k, sink)
}

/// The first `count` bytes of entry `k`.
fn write_cut<K: Sink>(
    world: &World,
    n: u32,
    a: u32,
    b: u32,
    k: u32,
    count: u32,
    sink: &mut K,
) -> Result<(), Failed>
    requires spent { world.now.spent ≡ false }
    requires a { a < world.now.script.tasks }
    requires b { b < world.now.script.tasks }
    ensures { Writes K.held K.faults K.room sink.old sink.new
        (flat_map (pcap_record n) (map (take count) (entry_bytes (view_record world.now) a b k))) result }
{
    write_front(n, world.wire(a, b), k, count, sink)
}

fn write_injected<K: Sink>(n: u32, bytes: &[u8], sink: &mut K) -> Result<(), Failed>
    ensures { Writes K.held K.faults K.room sink.old sink.new (flat_map (pcap_record n) (bytes.now ∷ [])) result }
{
    write_record(n, bytes, sink)
}

fn write_whole<K: Sink>(n: u32, entries: &[Bytes], k: u32, sink: &mut K) -> Result<(), Failed>
    ensures { Writes K.held K.faults K.room sink.old sink.new (whole_record n (slice_get entries.now k)) result }
{
    match entries.get(k as usize) {
        Some(entry) => write_record(n, entry.as_slice(), sink),
        None => Ok(()),
    }
}

fn write_front<K: Sink>(
    n: u32,
    entries: &[Bytes],
    k: u32,
    count: u32,
    sink: &mut K,
) -> Result<(), Failed>
    ensures { Writes K.held K.faults K.room sink.old sink.new (cut_record n count (slice_get entries.now k)) result }
{
    match entries.get(k as usize) {
        Some(entry) => write_record(n, front_of(entry.as_slice(), count), sink),
        None => Ok(()),
    }
}

#[tactic(auto, using(crate::proofs::Packets::taken_front))]
fn front_of(bytes: &[u8], count: u32) -> &[u8]
    ensures { result.now ≡ take count bytes.now }
{
    let (front, _) = bytes.split_at(cmp::min(count as usize, bytes.len()));
    front
}

/// One packet: its time, its sizes, its bytes.
fn write_record<K: Sink>(n: u32, bytes: &[u8], sink: &mut K) -> Result<(), Failed>
    ensures { Writes K.held K.faults K.room sink.old sink.new (pcap_record n bytes.now) result }
{
    write_all(sink, &record_head(n, bytes.len()))?;
    write_all(sink, bytes)
}

fn record_head(n: u32, size: usize) -> [u8; 16]
    ensures { result ≡ four n ++ (four 0 ++ (four size ++ four size)) }
{
    let size = size as u64;
    [
        (n / 16_777_216 % 256) as u8,
        (n / 65_536 % 256) as u8,
        (n / 256 % 256) as u8,
        (n % 256) as u8,
        0,
        0,
        0,
        0,
        (size / 16_777_216 % 256) as u8,
        (size / 65_536 % 256) as u8,
        (size / 256 % 256) as u8,
        (size % 256) as u8,
        (size / 16_777_216 % 256) as u8,
        (size / 65_536 % 256) as u8,
        (size / 256 % 256) as u8,
        (size % 256) as u8,
    ]
}
