ghost use Rattle.std.specs.Prelude.{◌≡◌, ◌*◌, ◌<◌, ◌≤◌};
ghost use Rattle.std.specs.List.{AllByRecursion};
ghost use Rattle.lapi_gen.specs.declared.form.TheConstants.{TASKS, BATCHES};
ghost use Rattle.lapi_gen.specs.Batches.{IsBatch};
ghost use Rattle.lapi_gen.specs.Schedules.{adds, most_added, entries, link_of, links_of, IsLink};

use crate::batch::Batch;
use crate::draws::Draws;
use crate::form::TASKS;

/// A task and its target in a batch.
#[derive(Clone, Copy, Debug)]
pub struct Link {
    pub from: u32,
    pub to: u32,
    /// How many entries the wire to the target has before the batch.
    pub there: u32,
    /// How many the wire back has.
    pub back: u32,
    /// The packet of the request with which the switch begins.
    pub turn: u32,
}

/// The links of all tasks in batch `b`.
pub fn links_at(draws: &Draws, b: u32) -> [Link; TASKS]
    requires { b < BATCHES }
    ensures links { result ≡ links_of draws.now b }
    ensures bounds { AllByRecursion IsLink result }
{
    [
        link_at(draws, b, 0),
        link_at(draws, b, 1),
        link_at(draws, b, 2),
        link_at(draws, b, 3),
        link_at(draws, b, 4),
    ]
}

/// The link of task `a` in batch `b`.
fn link_at(draws: &Draws, b: u32, a: u32) -> Link
    requires { (b < BATCHES) × (a < TASKS) }
    ensures link { result ≡ link_of draws.now b a }
    ensures bounds { IsLink result }
{
    let batch = draws.batch(b);
    let to = batch.target(a);
    Link {
        from: a,
        to,
        there: entries(draws, b, a, to),
        back: entries(draws, b, to, a),
        turn: batch.turns[a as usize],
    }
}

/// How many entries wire (`x`, `y`) has before batch `b`.
#[tactic(auto, unfolding(crate::specs::Schedules::entries), using(crate::proofs::Numbered::sum_none, crate::proofs::Numbered::sum_next))]
fn entries(draws: &Draws, b: u32, x: u32, y: u32) -> u32
    requires { (b < BATCHES) × (x < TASKS) × (y < TASKS) }
    ensures entries { result ≡ entries draws.now b x y }
    ensures few { result ≤ most_added * b }
{
    let mut total = 0;
    for c in 0..b {
        total += adds(&draws.batch(c), x, y);
    }
    total
}

/// How many entries the batch adds to wire (`x`, `y`).
fn adds(batch: &Batch, x: u32, y: u32) -> u32
    requires { (x < TASKS) × (y < TASKS) × IsBatch batch.now }
    ensures adds { result ≡ adds batch.now x y }
    ensures few { result ≤ most_added }
{
    if y == batch.target(x) {
        batch.requests() + batch.lost + batch.answers()
    } else if x == batch.target(y) {
        batch.requests() + batch.answers()
    } else {
        0
    }
}
