ghost use Rattle.std.specs.Prelude.{◌≡◌, ◌+◌, ◌<◌, ◌^◌};
ghost use Rattle.lapi_gen.specs.Draws.{pick, Stream};

use std::marker::Model;

/// What a state is multiplied by for the next one.
pub const MULTIPLIER: u64 = 6_364_136_223_846_793_005;

/// What is added then.
pub const INCREMENT: u64 = 1_442_695_040_888_963_407;

/// The stream of draws of a number, and how many were taken from it.
#[derive(Debug, Drop)]
pub struct Random {
    number: u32,
    drawn: u32,
    state: u64,
}

impl Model for Random {
    ghost use Rattle.std.specs.Prelude.{◌≡◌};
    ghost use Rattle.lapi_gen.specs.Draws.{state_at, Stream};

    ghost Value = { Stream };

    ghost view = { λ r. record { number = r.number; drawn = r.drawn } };

    ghost invariant = { λ r. r.state ≡ state_at r.number r.drawn };
}

impl Random {
    #[tactic(auto, using(crate::proofs::Streams::first_state))]
    pub fn new(number: u32) -> Random
        ensures { result ≡ record { number = number; drawn = 0 } }
    {
        Random {
            number,
            drawn: 0,
            state: number as u64,
        }
    }

    /// The next draw, modulo `bound`.
    #[tactic(auto, using(crate::proofs::Streams::next_state, crate::proofs::Streams::next_pick))]
    pub fn pick(&mut self, bound: u32) -> u32
        requires bound { 0 < bound }
        requires few { self.old.drawn + 1 < 2 ^ 32 }
        ensures value { result ≡ pick self.old.number self.old.drawn bound }
        ensures drawn { self.new ≡ record self.old { drawn = self.old.drawn + 1 } }
        ensures below { result < bound }
    {
        self.state = self.state.wrapping_mul(MULTIPLIER).wrapping_add(INCREMENT);
        self.drawn += 1;
        (self.state >> 32) as u32 % bound
    }
}
