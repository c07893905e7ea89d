//! The calls of a shared world, on its parts. A closure that captures a `&Shared` gets no promise of its result, so
//! lanes on threads of their own call these.
ghost use Rattle.std.specs.Prelude.{◌≡◌, ℕ, ◌⊎◌, ◌<◌, length, bit_or, bit_xor, IfOk, OnOk, OnErr};
ghost use Rattle.lapi_handlers.specs.Handlers.{rules_of};
ghost use Rattle.lapi_turn.specs.Entries.{HasRights};
ghost use Rattle.lapi_world.specs.Jobs.{IsBeginLine, IsPlainLine, HandsOut, begun_reply};
ghost use Rattle.lapi_live.specs.Histories.{IsOwn, OwnAfter, LastReply, SameOtherJobs, IsNoJob};
ghost use Rattle.lapi_live.specs.Passes.{plan_of, seen_by, lanes_of, IsPassOf, StaysPass, GoesOnFrom, TakesLine, EndsJob, FreesWorker, SameOwn, KeepsJobs};

use crate::pass::Pass;
use crate::room::{BeginAsk, EndAsk, LineAsk, Room};
use lapi_base::{Memory, Reply};
use lapi_handlers::{Begun, Finished, Handlers};
use lapi_turn::Turn;
use std::alloc::Global;
use std::sync::Wait;

/// Performs line `n`, which is neither Begin nor End.
pub(crate) fn take_line<R: Wait>(
    rt: &R,
    alloc: Global,
    turn: &Turn<Room>,
    handlers: &Handlers,
    pass: &mut Pass,
    n: u32,
) -> Result<Reply, Memory>
    requires rules { rules_of handlers.now ≡ (plan_of turn.now).rules }
    requires pass { IsPassOf turn.now pass.old }
    requires line { (n < length (plan_of turn.now).schedule) × IsPlainLine (plan_of turn.now).schedule n }
    requires own { IsOwn (plan_of turn.now).schedule (lanes_of pass.old) n }
    ensures pass { StaysPass turn.now pass.old pass.new }
    ensures seen { OnOk result (TakesLine turn.now pass.old pass.new n) }
    ensures err { OnErr result (GoesOnFrom turn.now pass.old (seen_by pass.new)) }
    ensures own { OwnAfter (plan_of turn.now).schedule result (lanes_of pass.old) (seen_by pass.old) (seen_by pass.new) n }
    ensures reply { IfOk result (LastReply (plan_of turn.now) (seen_by pass.new)) }
    ensures jobs { KeepsJobs turn.now pass.old pass.new }
{
    turn.with(rt, alloc, &mut pass.seat, LineAsk { n, handlers })
}

/// Performs line `n`, a Begin.
pub(crate) fn take_begin<R: Wait>(
    rt: &R,
    alloc: Global,
    turn: &Turn<Room>,
    pass: &mut Pass,
    n: u32,
) -> Result<Begun, Memory>
    requires pass { IsPassOf turn.now pass.old }
    requires line { IsBeginLine (plan_of turn.now).schedule n }
    requires own { IsOwn (plan_of turn.now).schedule (lanes_of pass.old) n }
    ensures pass { StaysPass turn.now pass.old pass.new }
    ensures seen { OnOk result (TakesLine turn.now pass.old pass.new n) }
    ensures err { OnErr result (GoesOnFrom turn.now pass.old (seen_by pass.new)) }
    ensures own { OwnAfter (plan_of turn.now).schedule result (lanes_of pass.old) (seen_by pass.old) (seen_by pass.new) n }
    ensures reply { IfOk result (λ begun. LastReply (plan_of turn.now) (seen_by pass.new) (begun_reply begun)) }
    ensures job { IfOk result (λ begun. HandsOut (record (plan_of turn.now) { taken = seen_by pass.new }) n begun) }
    ensures jobs { SameOtherJobs (plan_of turn.now) (lanes_of pass.old) n (seen_by pass.old) (seen_by pass.new) }
    ensures no_job { IfOk result (λ begun. IsNoJob begun → KeepsJobs turn.now pass.old pass.new) }
{
    turn.with(rt, alloc, &mut pass.seat, BeginAsk { n })
}

/// Performs line `n`, an End.
pub(crate) fn take_end<R: Wait>(
    rt: &R,
    alloc: Global,
    turn: &Turn<Room>,
    pass: &mut Pass,
    n: u32,
    finished: Option<Finished>,
) -> Result<Reply, Memory>
    requires pass { IsPassOf turn.now pass.old }
    requires line { EndsJob turn.now pass.old n finished }
    requires own { IsOwn (plan_of turn.now).schedule (lanes_of pass.old) n }
    ensures pass { StaysPass turn.now pass.old pass.new }
    ensures seen { OnOk result (TakesLine turn.now pass.old pass.new n) }
    ensures err { OnErr result (GoesOnFrom turn.now pass.old (seen_by pass.new)) }
    ensures own { OwnAfter (plan_of turn.now).schedule result (lanes_of pass.old) (seen_by pass.old) (seen_by pass.new) n }
    ensures reply { IfOk result (LastReply (plan_of turn.now) (seen_by pass.new)) }
    ensures jobs { SameOtherJobs (plan_of turn.now) (lanes_of pass.old) n (seen_by pass.old) (seen_by pass.new) }
    ensures freed { OnOk result (FreesWorker turn.now pass.new n) }
{
    turn.with(rt, alloc, &mut pass.seat, EndAsk { n, finished })
}

/// A new pass that owns these lanes of the old one.
pub(crate) fn split_pass(turn: &Turn<Room>, pass: &mut Pass, lanes: u32) -> Pass
    requires pass { IsPassOf turn.now pass.old }
    requires lanes { HasRights (lanes_of pass.old) lanes }
    ensures passes { IsPassOf turn.now pass.new × IsPassOf turn.now result }
    ensures seen { (seen_by pass.new ≡ seen_by pass.old) × (seen_by result ≡ seen_by pass.old) }
    ensures given { lanes_of result ≡ lanes }
    ensures left { lanes_of pass.new ≡ bit_xor (lanes_of pass.old) lanes }
{
    let seat = turn.split(&mut pass.seat, lanes);
    Pass { seat }
}

/// One pass that owns the lanes of both.
pub(crate) fn join_passes(turn: &Turn<Room>, pass: Pass, other: Pass) -> Pass
    requires pass { IsPassOf turn.now pass }
    requires other { IsPassOf turn.now other }
    ensures pass { IsPassOf turn.now result }
    ensures lanes { lanes_of result ≡ bit_or (lanes_of pass) (lanes_of other) }
    ensures seen { (seen_by result ≡ seen_by pass) ⊎ (seen_by result ≡ seen_by other) }
    ensures goes_on { GoesOnFrom turn.now pass (seen_by result) × GoesOnFrom turn.now other (seen_by result) }
    ensures own { SameOwn turn.now pass result × SameOwn turn.now other result }
    ensures jobs { KeepsJobs turn.now pass result × KeepsJobs turn.now other result }
{
    let Pass { seat } = pass;
    let Pass { seat: other } = other;
    Pass {
        seat: turn.join(seat, other),
    }
}
