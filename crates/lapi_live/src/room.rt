//! A world under a turn, and what it can be asked.
ghost use Rattle.std.specs.Prelude.{◌≡◌, ◌<◌, length, is_ok};
ghost use Rattle.lapi_world.specs.Jobs.{IsBeginLine, IsPlainLine};
ghost use Rattle.lapi_live.specs.Rooms.{plan_of_world, entry_of, entries_of, MayLine, MayBegin, LawfulEnd};

use lapi_base::{Memory, Reply};
use lapi_handlers::{Begun, Finished, Handlers};
use lapi_turn::{Asked, Kept};
use lapi_world::World;
use std::alloc::Global;

/// A world whose lines are the entries of a turn's list. A line needs the right of its lane.
#[derive(Drop)]
pub struct Room {
    pub(crate) world: World,
}

impl Kept for Room {
    /// The world before its first line.
    type Fixed = World;

    ghost list = { λ r. entries_of r.world.schedule r.world.taken };

    ghost fixed = { λ r. plan_of_world r.world };
}

/// Line `n`, which is neither Begin nor End.
#[derive(Clone, Copy)]
pub(crate) struct LineAsk<'h> {
    pub(crate) n: u32,
    pub(crate) handlers: &'h Handlers,
}

/// Line `n`, a Begin.
#[derive(Clone, Copy)]
pub(crate) struct BeginAsk {
    pub(crate) n: u32,
}

/// Line `n`, an End, with what became of the job of its worker.
#[derive(Drop)]
pub(crate) struct EndAsk {
    pub(crate) n: u32,
    pub(crate) finished: Option<Finished>,
}

impl<'h> Asked<LineAsk<'h>> for Room {
    ghost use Rattle.lapi_handlers.specs.Handlers.{rules_of};

    type Answer = Result<Reply, Memory>;

    ghost entry = { λ plan q. entry_of plan.schedule q.n };

    ghost appended = { λ answer. is_ok answer };

    ghost lawful = { λ plan list q. (q.n < length plan.schedule) × IsPlainLine plan.schedule q.n × (rules_of q.handlers.now ≡ plan.rules) };

    ghost may = { λ plan list q answer. MayLine plan list q.n answer };

    fn act(&mut self, alloc: Global, ask: LineAsk<'h>) -> (Result<Reply, Memory>, bool) {
        let answer = self.world.line(alloc, ask.handlers, ask.n);
        let grew = answer.is_ok();
        (answer, grew)
    }
}

impl Asked<BeginAsk> for Room {
    type Answer = Result<Begun, Memory>;

    ghost entry = { λ plan q. entry_of plan.schedule q.n };

    ghost appended = { λ answer. is_ok answer };

    ghost lawful = { λ plan list q. IsBeginLine plan.schedule q.n };

    ghost may = { λ plan list q answer. MayBegin plan list q.n answer };

    fn act(&mut self, alloc: Global, ask: BeginAsk) -> (Result<Begun, Memory>, bool) {
        let answer = self.world.begin(alloc, ask.n);
        let grew = answer.is_ok();
        (answer, grew)
    }
}

impl Asked<EndAsk> for Room {
    type Answer = Result<Reply, Memory>;

    ghost entry = { λ plan q. entry_of plan.schedule q.n };

    ghost appended = { λ answer. is_ok answer };

    ghost lawful = { λ plan list q. LawfulEnd plan list q.n q.finished };

    ghost may = { λ plan list q answer. MayLine plan list q.n answer };

    fn act(&mut self, alloc: Global, ask: EndAsk) -> (Result<Reply, Memory>, bool) {
        let EndAsk { n, finished } = ask;
        let answer = self.world.end(alloc, n, finished);
        let grew = answer.is_ok();
        (answer, grew)
    }
}
