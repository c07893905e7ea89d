//! The chart of a run.

ghost use Rattle.std.specs.Prelude.{◌≡◌, ◌<◌, false, ◌∷◌, [], ◌++◌, length, IfOk, OnOk, Some};
ghost use Rattle.lapi_base.specs.Packet.Spelling.{spells_packet};
ghost use Rattle.lapi_base.specs.Record.TaskPart.{actor};
ghost use Rattle.lapi_base.specs.Record.Valid.{ValidScript, ValidSchedule, ValidRules};
ghost use Rattle.lapi_base.specs.Record.WorldView.{act_at, view_record};
ghost use Rattle.lapi_handlers.specs.Handlers.{rules_of};
ghost use Rattle.lapi_views.specs.Chart.{act_rows, chart_of, deed_of, rows_by, run_rows};
ghost use Rattle.lapi_views.specs.SinkWrites.{WritesWithMemory};
ghost use Rattle.lapi_world.specs.Jobs.{AreKept};

use crate::before::Before;
use crate::part::Part;
use crate::performed::take_line;
use crate::rows::add_rows;
use crate::text::write_text;
use lapi_base::{Act, Input, Line, Memory, WriteFault};
use lapi_handlers::Handlers;
use lapi_io::Sink;
use lapi_packet::spelling_laws;
use lapi_parts::{packets_are_spelled, records_go_on};
use lapi_picture::{Deed, Rows, draw_chart, page_of};
use lapi_world::{FinishedJobs, World};
use std::alloc::Global;

/// Performs every line of an input, and writes the chart of these lines.
#[tactic(auto, using(crate::proofs::Unwritten::nothing_written))]
pub fn write_chart<K: Sink>(
    alloc: Global,
    input: Input,
    part: Part,
    sink: &mut K,
    handlers: &Handlers,
) -> Result<(), WriteFault>
    requires script { ValidScript input.script }
    requires schedule { ValidSchedule input.script spells_packet input.schedule }
    ensures { WritesWithMemory K.held K.faults K.room sink.old sink.new
        (chart_of (rules_of handlers.now) part input) result }
{
    let tasks = input.script.tasks;
    let rows = rows_of(alloc, input, handlers)?;
    let page = page_of(tasks, rows.as_slice(), part.from, part.until);
    let text = draw_chart(alloc, page, rows.as_slice())?;
    write_text(text.as_str(), sink)
}

/// The rows of all lines of an input, taken in order.
fn rows_of(alloc: Global, input: Input, handlers: &Handlers) -> Result<Rows, Memory>
    requires script { ValidScript input.script }
    requires schedule { ValidSchedule input.script spells_packet input.schedule }
    ensures { IfOk result (λ rows. rows ≡ run_rows input.script (rules_of handlers.now) input.schedule) }
{
    let mut world = World::new(alloc, input.script, input.schedule, handlers)?;
    let mut jobs = FinishedJobs::new(alloc)?;
    let mut rows = Rows::new(alloc);
    let count = world.schedule().len() as u32;
    for n in 0..count {
        match add_line(alloc, &mut world, handlers, &mut jobs, n, &mut rows) {
            Ok(()) => {}
            Err(_) => return Err(Memory),
        }
    }
    Ok(rows)
}

/// Takes line `n`, and adds its rows.
fn add_line(
    alloc: Global,
    world: &mut World,
    handlers: &Handlers,
    jobs: &mut FinishedJobs,
    n: u32,
    rows: &mut Rows,
) -> Result<(), Memory>
    requires line { n < length world.old.schedule }
    requires spent { world.old.spent ≡ false }
    requires rules { rules_of handlers.now ≡ world.old.rules }
    requires jobs { AreKept world.old jobs.old }
    ensures world { OnOk result (world.new ≡ record world.old { taken = world.old.taken ++ n ∷ [] }) }
    ensures jobs { OnOk result (AreKept world.new jobs.new) }
    ensures rows { OnOk result (rows.new ≡ rows.old ++ rows_by world.old.script world.old.rules n
        (act_at world.old.schedule n) (view_record world.old) (view_record world.new)) }
{
    records_go_on();
    packets_are_spelled();
    spelling_laws();
    rules_are_valid(handlers);
    let (task, deed) = told_at(world.schedule(), n);
    let before = Before::new(alloc, world, task)?;
    take_line(alloc, world, handlers, jobs, n)?;
    add_rows(world, n, task, deed, &before, rows)
}

/// Handlers are few.
fn rules_are_valid(handlers: &Handlers)
    ensures { ValidRules (rules_of handlers.now) }
{}

/// The task of line `n`, and what it does there.
fn told_at(schedule: &[Line], n: u32) -> (u32, Deed)
    requires { n < length schedule.now }
    ensures { (act : _) × (act_at schedule.now n ≡ Some act) × (result.0 ≡ actor act) × (result.1 ≡ deed_of act) }
{
    told(&schedule[n as usize].act)
}

fn told(act: &Act) -> (u32, Deed)
    ensures task { result.0 ≡ actor act.now }
    ensures deed { result.1 ≡ deed_of act.now }
{
    match act {
        Act::Step(t) => (*t, Deed::Step),
        Act::Poll(t) => (*t, Deed::Poll),
        Act::Tick(t) => (*t, Deed::Tick),
        Act::Deliver { a, b, k } => (
            *b,
            Deed::Deliver {
                from: *a,
                place: *k,
            },
        ),
        Act::Cut { a, b, k, n } => (
            *b,
            Deed::Cut {
                from: *a,
                place: *k,
                count: *n,
            },
        ),
        Act::Inject { a, b, .. } => (*b, Deed::Inject { from: *a }),
        Act::Begin { task, worker } => (*task, Deed::Begin { worker: *worker }),
        Act::End { task, worker } => (*task, Deed::End { worker: *worker }),
    }
}
