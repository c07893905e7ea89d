//! A world that threads share.
ghost use Rattle.std.specs.Prelude.{◌≡◌, ℕ, ◌⊎◌, bit_or, bit_xor, false, [], ◌∷◌, ◌++◌, ◌<◌, length, IfOk, OnOk, OnErr};
ghost use Rattle.lapi_handlers.specs.Handlers.{rules_of};
ghost use Rattle.lapi_turn.specs.Entries.{HasRights};
ghost use Rattle.lapi_turn.specs.TurnRule.{all_rights};
ghost use Rattle.lapi_world.specs.Jobs.{IsBeginLine, IsPlainLine, HandsOut, begun_reply};
ghost use Rattle.lapi_base.specs.Record.Lanes.{WorkersKeepLanes};
ghost use Rattle.lapi_live.specs.Histories.{IsOwn, OwnAfter, LastReply, SameOtherJobs, IsNoJob};
ghost use Rattle.lapi_live.specs.Kinds.{kinds_of};
ghost use Rattle.lapi_live.specs.Passes.{plan_of, seen_by, lanes_of, IsPassOf, StaysPass, GoesOnFrom, TakesLine, EndsJob, FreesWorker, SameOwn, KeepsJobs};
ghost use Rattle.lapi_live.specs.Rooms.{plan_of_world};

use crate::kinds::Kinds;
use crate::pass::Pass;
use crate::room::Room;
use crate::steps::{join_passes, split_pass, take_begin, take_end, take_line};
use lapi_base::{Memory, Reply};
use lapi_handlers::{Begun, Finished, Handlers};
use lapi_turn::Turn;
use lapi_world::World;
use std::alloc::Global;
use std::sync::Wait;

/// A world that threads take the lines of in turn, through a `&`, each with a pass.
///
/// What is not claimed: that a turn ever comes, that turns are shared out fairly, or how long one takes.
#[derive(Drop)]
pub struct Shared<'h> {
    pub(crate) turn: Turn<Room>,
    pub(crate) handlers: &'h Handlers,
    pub(crate) kinds: Kinds,
    ghost kinds_are: { kinds ≡ kinds_of (plan_of turn).schedule },
    ghost same_rules: { rules_of handlers.now ≡ (plan_of turn).rules },
}

impl<'h> Shared<'h> {
    /// Shares a world, and gives the pass that owns all 16 lanes.
    pub fn new(
        alloc: Global,
        world: World,
        handlers: &'h Handlers,
    ) -> Result<(Shared<'h>, Pass), Memory>
        requires untaken { world.taken ≡ [] }
        requires apart { WorkersKeepLanes world.schedule }
        requires rules { rules_of handlers.now ≡ world.rules }
        ensures pass { IfOk result (λ s. IsPassOf s.0.turn s.1) }
        ensures plan { IfOk result (λ s. plan_of s.0.turn ≡ plan_of_world world) }
        ensures seen { IfOk result (λ s. seen_by s.1 ≡ []) }
        ensures lanes { IfOk result (λ s. lanes_of s.1 ≡ all_rights) }
    {
        let kinds = Kinds::of(alloc, world.schedule())?;
        let (turn, seat) = Turn::new(alloc, Room { world })?;
        let shared = Shared {
            turn,
            handlers,
            kinds,
        };
        Ok((shared, Pass { seat }))
    }

    /// Performs schedule line `n`, which is neither Begin nor End.
    pub fn line<R: Wait>(
        &self,
        rt: &R,
        alloc: Global,
        pass: &mut Pass,
        n: u32,
    ) -> Result<Reply, Memory>
        requires pass { IsPassOf self.now.turn pass.old }
        requires line { (n < length (plan_of self.now.turn).schedule) × IsPlainLine (plan_of self.now.turn).schedule n }
        requires own { IsOwn (plan_of self.now.turn).schedule (lanes_of pass.old) n }
        ensures pass { StaysPass self.now.turn pass.old pass.new }
        ensures seen { OnOk result (TakesLine self.now.turn pass.old pass.new n) }
        ensures err { OnErr result (GoesOnFrom self.now.turn pass.old (seen_by pass.new)) }
        ensures own { OwnAfter (plan_of self.now.turn).schedule result (lanes_of pass.old) (seen_by pass.old) (seen_by pass.new) n }
        ensures reply { IfOk result (LastReply (plan_of self.now.turn) (seen_by pass.new)) }
        ensures jobs { KeepsJobs self.now.turn pass.old pass.new }
    {
        take_line(rt, alloc, &self.turn, self.handlers, pass, n)
    }

    /// Performs schedule line `n`, a Begin. A job that begins is handed out, once, and runs until its End.
    pub fn begin<R: Wait>(
        &self,
        rt: &R,
        alloc: Global,
        pass: &mut Pass,
        n: u32,
    ) -> Result<Begun, Memory>
        requires pass { IsPassOf self.now.turn pass.old }
        requires line { IsBeginLine (plan_of self.now.turn).schedule n }
        requires own { IsOwn (plan_of self.now.turn).schedule (lanes_of pass.old) n }
        ensures pass { StaysPass self.now.turn pass.old pass.new }
        ensures seen { OnOk result (TakesLine self.now.turn pass.old pass.new n) }
        ensures err { OnErr result (GoesOnFrom self.now.turn pass.old (seen_by pass.new)) }
        ensures own { OwnAfter (plan_of self.now.turn).schedule result (lanes_of pass.old) (seen_by pass.old) (seen_by pass.new) n }
        ensures reply { IfOk result (λ begun. LastReply (plan_of self.now.turn) (seen_by pass.new) (begun_reply begun)) }
        ensures job { IfOk result (λ begun. HandsOut (record (plan_of self.now.turn) { taken = seen_by pass.new }) n begun) }
        ensures jobs { SameOtherJobs (plan_of self.now.turn) (lanes_of pass.old) n (seen_by pass.old) (seen_by pass.new) }
        ensures no_job { IfOk result (λ begun. IsNoJob begun → KeepsJobs self.now.turn pass.old pass.new) }
    {
        take_begin(rt, alloc, &self.turn, pass, n)
    }

    /// Performs schedule line `n`, an End, with what became of the job that the pass holds for its worker.
    pub fn end<R: Wait>(
        &self,
        rt: &R,
        alloc: Global,
        pass: &mut Pass,
        n: u32,
        finished: Option<Finished>,
    ) -> Result<Reply, Memory>
        requires pass { IsPassOf self.now.turn pass.old }
        requires line { EndsJob self.now.turn pass.old n finished }
        requires own { IsOwn (plan_of self.now.turn).schedule (lanes_of pass.old) n }
        ensures pass { StaysPass self.now.turn pass.old pass.new }
        ensures seen { OnOk result (TakesLine self.now.turn pass.old pass.new n) }
        ensures err { OnErr result (GoesOnFrom self.now.turn pass.old (seen_by pass.new)) }
        ensures own { OwnAfter (plan_of self.now.turn).schedule result (lanes_of pass.old) (seen_by pass.old) (seen_by pass.new) n }
        ensures reply { IfOk result (LastReply (plan_of self.now.turn) (seen_by pass.new)) }
        ensures jobs { SameOtherJobs (plan_of self.now.turn) (lanes_of pass.old) n (seen_by pass.old) (seen_by pass.new) }
        ensures freed { OnOk result (FreesWorker self.now.turn pass.new n) }
    {
        take_end(rt, alloc, &self.turn, pass, n, finished)
    }

    /// A new pass that owns these lanes of the old one: bit i hands over lane i.
    pub fn split(&self, pass: &mut Pass, lanes: u32) -> Pass
        requires pass { IsPassOf self.now.turn pass.old }
        requires lanes { HasRights (lanes_of pass.old) lanes }
        ensures passes { IsPassOf self.now.turn pass.new × IsPassOf self.now.turn result }
        ensures seen { (seen_by pass.new ≡ seen_by pass.old) × (seen_by result ≡ seen_by pass.old) }
        ensures given { lanes_of result ≡ lanes }
        ensures left { lanes_of pass.new ≡ bit_xor (lanes_of pass.old) lanes }
    {
        split_pass(&self.turn, pass, lanes)
    }

    /// One pass that owns the lanes of both, and has seen the longer of both lists of lines.
    pub fn join(&self, pass: Pass, other: Pass) -> Pass
        requires pass { IsPassOf self.now.turn pass }
        requires other { IsPassOf self.now.turn other }
        ensures pass { IsPassOf self.now.turn result }
        ensures lanes { lanes_of result ≡ bit_or (lanes_of pass) (lanes_of other) }
        ensures seen { (seen_by result ≡ seen_by pass) ⊎ (seen_by result ≡ seen_by other) }
        ensures goes_on { GoesOnFrom self.now.turn pass (seen_by result) × GoesOnFrom self.now.turn other (seen_by result) }
        ensures own { SameOwn self.now.turn pass result × SameOwn self.now.turn other result }
        ensures jobs { KeepsJobs self.now.turn pass result × KeepsJobs self.now.turn other result }
    {
        join_passes(&self.turn, pass, other)
    }

    /// The world, for the pass that owns all 16 lanes.
    pub fn close(self, pass: Pass) -> World
        requires pass { IsPassOf self.turn pass }
        requires lanes { lanes_of pass ≡ all_rights }
        ensures plan { plan_of_world result ≡ plan_of self.entry.turn }
        ensures taken { result.taken ≡ seen_by pass }
    {
        let Shared {
            turn,
            handlers: _,
            kinds: _,
        } = self;
        let Pass { seat } = pass;
        let Room { world } = turn.close(seat);
        world
    }
}
