ghost use Rattle.std.specs.Prelude.{◌≡◌, ◌+◌, ◌<◌};
ghost use Rattle.lapi_gen.specs.declared.form.TheConstants.{TASKS, BATCHES};
ghost use Rattle.lapi_gen.specs.Draws.{Stream};
ghost use Rattle.lapi_gen.specs.Batches.{batch_of, first_draw, target, requests, kept, answers, IsBatch};

use crate::form::{KINDS, LONGEST, LOSS, TASKS};
use crate::kind::Kind;
use crate::random::Random;

/// What is drawn for a batch of calls.
#[derive(Clone, Copy, Debug)]
pub struct Batch {
    /// How far each task's target is from it, going round the tasks.
    pub distance: u32,
    pub kind: Kind,
    /// How many bytes each call moves.
    pub len: u32,
    /// How many packets the switch loses on each link, 0 or 1.
    pub lost: u32,
    /// For each task the packet of its request with which the switch begins.
    pub turns: [u32; TASKS],
}

impl Batch {
    /// Draws batch `b`.
    pub fn draw(random: &mut Random, b: u32) -> Batch
        requires place { random.old.drawn ≡ first_draw b }
        requires there { b < BATCHES }
        ensures batch { result ≡ batch_of random.old.number b }
        ensures drawn { random.new ≡ record { number = random.old.number; drawn = first_draw (b + 1) } }
    {
        let distance = 1 + random.pick(TASKS as u32 - 1);
        let kind = Kind::of(random.pick(KINDS));
        let len = random.pick(LONGEST + 1);
        let lost = random.pick(LOSS);
        let requests = kind.requests(len);
        let turns = [
            random.pick(requests),
            random.pick(requests),
            random.pick(requests),
            random.pick(requests),
            random.pick(requests),
        ];
        Batch {
            distance,
            kind,
            len,
            lost,
            turns,
        }
    }

    /// The task that task `a` calls.
    pub fn target(&self, a: u32) -> u32
        requires { (a < TASKS) × IsBatch self.now }
        ensures { result ≡ target self.now a }
    {
        (a + self.distance) % TASKS as u32
    }

    /// How many packets each request has.
    pub fn requests(&self) -> u32
        requires { IsBatch self.now }
        ensures { result ≡ requests self.now }
    {
        self.kind.requests(self.len)
    }

    /// How many of these the switch doesn't lose.
    pub fn kept(&self) -> u32
        requires { IsBatch self.now }
        ensures { result ≡ kept self.now }
    {
        self.requests() - self.lost
    }

    /// How many packets each answer has.
    pub fn answers(&self) -> u32
        requires { IsBatch self.now }
        ensures { result ≡ answers self.now }
    {
        self.kind.answers(self.len)
    }
}
