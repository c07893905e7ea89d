//! The rows of one line of a schedule.

ghost use Rattle.std.specs.Prelude.{◌≡◌, ◌<◌, ◌≤◌, false, ◌++◌, length, OnOk, drop};
ghost use Rattle.std.specs.List.{flat_map};
ghost use Rattle.lapi_base.specs.Packet.Spelling.{decoded};
ghost use Rattle.lapi_base.specs.Record.Operations.{numbers_below};
ghost use Rattle.lapi_base.specs.Record.WorldView.{view_record};
ghost use Rattle.lapi_views.specs.Chart.{counted_row};
ghost use Rattle.lapi_views.specs.ChartParts.{cargo_by, counted_after, entries_after, entry_rows, happened_after, replied_after, rows_after};

use crate::before::Before;
use lapi_base::{Bytes, Event, Memory, Packet, Reply};
use lapi_packet::decode;
use lapi_picture::{Cargo, Deed, Row, Rows};
use lapi_world::World;
use std::cmp;

/// Adds the rows of line `n`, the last that was taken.
#[tactic(auto, unfolding(crate::specs::ChartParts::rows_after))]
pub fn add_rows(
    world: &World,
    n: u32,
    task: u32,
    deed: Deed,
    before: &Before,
    rows: &mut Rows,
) -> Result<(), Memory>
    requires spent { world.now.spent ≡ false }
    requires task { task < world.now.script.tasks }
    requires wires { length before.now.entries ≡ world.now.script.tasks }
    requires counters { length before.now.counters ≡ world.now.script.counters }
    ensures { OnOk result (rows.new ≡ rows.old
        ++ rows_after world.now.script world.now.rules n task deed before.now (view_record world.now)) }
{
    add_replies(
        n,
        task,
        deed,
        after(world.replies(), before.replies()),
        rows,
    )?;
    add_events(task, after(world.journal(), before.events()), rows)?;
    add_entries(world, task, before, rows)?;
    add_counters(world, task, before, rows)
}

/// All but the first `count`.
fn after<T>(items: &[T], count: usize) -> &[T]
    ensures { result.now ≡ drop count items.now }
{
    let (_, rest) = items.split_at(cmp::min(count, items.len()));
    rest
}

fn add_replies(
    n: u32,
    task: u32,
    deed: Deed,
    replies: &[Reply],
    rows: &mut Rows,
) -> Result<(), Memory>
    ensures { OnOk result (rows.new ≡ rows.old ++ replied_after n task deed 0 replies.now) }
{
    for reply in replies {
        rows.push(Row::Line {
            line: n,
            task,
            deed,
            reply: *reply,
        })?;
    }
    Ok(())
}

fn add_events(task: u32, events: &[Event], rows: &mut Rows) -> Result<(), Memory>
    ensures { OnOk result (rows.new ≡ rows.old ++ happened_after task 0 events.now) }
{
    for event in events {
        rows.push(Row::Happened {
            task,
            event: *event,
        })?;
    }
    Ok(())
}

/// What the task put on its wires, wire by wire.
fn add_entries(world: &World, task: u32, before: &Before, rows: &mut Rows) -> Result<(), Memory>
    requires spent { world.now.spent ≡ false }
    requires task { task < world.now.script.tasks }
    requires wires { length before.now.entries ≡ world.now.script.tasks }
    ensures { OnOk result (rows.new ≡ rows.old
        ++ flat_map (entries_after task before.now (view_record world.now)) (numbers_below world.now.script.tasks)) }
{
    for b in 0..world.script().tasks {
        add_sent(task, b, before.entries(b), world.wire(task, b), rows)?;
    }
    Ok(())
}

/// The entries of a wire from place `first` on.
fn add_sent(a: u32, b: u32, first: usize, entries: &[Bytes], rows: &mut Rows) -> Result<(), Memory>
    ensures { OnOk result (rows.new ≡ rows.old ++ entry_rows a b first (drop first entries.now)) }
{
    for k in first..entries.len() {
        rows.push(Row::Sent {
            from: a,
            to: b,
            place: k,
            cargo: cargo(entries[k].as_slice()),
        })?;
    }
    Ok(())
}

/// What an entry's packet says.
fn cargo(bytes: &[u8]) -> Cargo
    ensures { result ≡ cargo_by (decoded bytes.now) }
{
    match decode(bytes) {
        Ok(Packet::Data(packet)) => Cargo::Data {
            name: packet.name,
            seq: packet.seq,
            fragment: packet.fragment,
        },
        Ok(Packet::Ack { base, .. }) => Cargo::Ack { base },
        Err(_) => Cargo::Nothing,
    }
}

/// The counters of the task that changed.
fn add_counters(world: &World, task: u32, before: &Before, rows: &mut Rows) -> Result<(), Memory>
    requires spent { world.now.spent ≡ false }
    requires task { task < world.now.script.tasks }
    requires counters { length before.now.counters ≡ world.now.script.counters }
    ensures { OnOk result (rows.new ≡ rows.old
        ++ flat_map (counted_after world.now.script world.now.rules task before.now (view_record world.now))
        (numbers_below world.now.script.counters)) }
{
    let now = world.task(task);
    for c in 0..world.script().counters {
        add_counter(task, c, before.counter(c), now.counter(c), rows)?;
    }
    Ok(())
}

fn add_counter(
    task: u32,
    counter: u32,
    before: u64,
    value: u64,
    rows: &mut Rows,
) -> Result<(), Memory>
    ensures { OnOk result (rows.new ≡ rows.old ++ counted_row task counter before value) }
{
    if before != value {
        rows.push(Row::Counted {
            task,
            counter,
            value,
        })?;
    }
    Ok(())
}
