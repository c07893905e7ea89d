ghost use Rattle.std.specs.Prelude.{◌≡◌, [], ◌∷◌, length, IfOk};
ghost use Rattle.std.specs.List.{AllByRecursion};
ghost use Rattle.lapi_base.specs.declared.schedule.Act.TheVariants.{Step};
ghost use Rattle.lapi_base.specs.declared.schedule.Line.{Line};
ghost use Rattle.lapi_base.specs.declared.script.Script.{Script};
ghost use Rattle.lapi_base.specs.Packet.Spelling.{spells_packet};
ghost use Rattle.lapi_base.specs.Record.Valid.{ValidScript, ValidSchedule, ValidStatement};

use lapi_base::{
    Act, Line, Memory, Reply, Schedule, Script, Statement, StatementLists, Statements,
};
use lapi_handlers::Handlers;
use lapi_live::{Shared, lanes};
use lapi_world::World;
use std::alloc::Global;
use std::test::Fail;

/// Task 0 sets a counter and reads it; task 1 does nothing.
fn script_of(alloc: Global) -> Result<Script, Memory>
    ensures { IfOk result (λ script. ValidScript script × (script.tasks ≡ 2)) }
{
    let mut list = Statements::new(alloc);
    list.push(Statement::Set {
        counter: 0,
        value: 3,
    })?;
    list.push(Statement::Read { counter: 0 })?;
    let mut lists = StatementLists::new(alloc);
    lists.push(list)?;
    lists.push(Statements::new(alloc))?;
    Ok(Script {
        layout: 1,
        tasks: 2,
        memory: 64,
        counters: 4,
        workers: 1,
        lists,
    })
}

/// Two steps of task 0, in lane 2.
fn two_steps(alloc: Global) -> Result<Schedule, Memory>
    ensures { IfOk result (λ schedule. schedule ≡ record { lane = 2; act = Step 0 } ∷ record { lane = 2; act = Step 0 } ∷ []) }
{
    let mut schedule = Schedule::new(alloc);
    schedule.push(Line {
        lane: 2,
        act: Act::Step(0),
    })?;
    schedule.push(Line {
        lane: 2,
        act: Act::Step(0),
    })?;
    Ok(schedule)
}

#[test]
fn a_task_reads_what_an_earlier_line_of_its_lane_set(rt: HostRuntime) -> Result<(), Fail> {
    let alloc = rt.alloc();
    let schedule = two_steps(alloc)?;
    let Ok(_set) = lanes(alloc, schedule.as_slice()) else {
        return Err(Memory.into());
    };
    let handlers = Handlers::new(Vec::new(alloc), Vec::new(alloc));
    let world = World::new(alloc, script_of(alloc)?, schedule, &handlers)?;
    let (shared, mut pass) = Shared::new(alloc, world, &handlers)?;
    assert_eq!(rt; shared.line(&rt, alloc, &mut pass, 0)?, Reply::Did);
    assert_eq!(rt; shared.line(&rt, alloc, &mut pass, 1)?, Reply::Did);
    let world = shared.close(pass);
    assert_eq!(rt; world.task(0).reads(), [(1, 3)].as_slice());
    assert_eq!(rt; world.taken(), [0, 1].as_slice());
    Ok(())
}
