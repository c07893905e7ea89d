//! A schedule whose lanes run on threads of their own.
ghost use Rattle.std.specs.Prelude.{◌≡◌, ℕ, ◌<◌, ◌≤◌, [], length, IfOk};
ghost use Rattle.lapi_base.specs.Record.Operations.{numbers_below};
ghost use Rattle.lapi_handlers.specs.Handlers.{rules_of};
ghost use Rattle.lapi_base.specs.Record.Lanes.{WorkersKeepLanes, IsInterleaving};
ghost use Rattle.lapi_live.specs.Lanes.{lane_set};
ghost use Rattle.lapi_live.specs.Rooms.{plan_of_world};

use crate::gate::Gate;
use crate::lane_set::LaneSet;
use crate::running::run_lanes;
use crate::shared::Shared;
use lapi_base::Memory;
use lapi_handlers::Handlers;
use lapi_world::World;
use std::alloc::Global;
use std::sync::Wait;
use std::thread::Threads;

/// Performs every line of a world's schedule, with each lane on a thread of its own. The set is that of `lanes`. Each
/// lane's lines are taken once, in order.
pub fn run_world<R: Threads + Wait + Sync, G: Gate + Sync>(
    rt: &R,
    alloc: Global,
    world: World,
    handlers: &Handlers,
    set: &LaneSet,
    gate: &G,
) -> Result<World, Memory>
    requires untaken { world.taken ≡ [] }
    requires set { set.now ≡ lane_set world.schedule }
    requires apart { WorkersKeepLanes world.schedule }
    requires rules { rules_of handlers.now ≡ world.rules }
    ensures plan { IfOk result (λ w. plan_of_world w ≡ plan_of_world world) }
    ensures taken { IfOk result (λ w. IsInterleaving world.schedule w.taken) }
{
    let (shared, pass) = Shared::new(alloc, world, handlers)?;
    let pass = run_lanes(rt, alloc, &shared, pass, set, gate)?;
    Ok(shared.close(pass))
}
