ghost use Rattle.std.specs.Prelude.{◌≡◌, ◌≢◌, ℕ, ◌+◌, ◌^◌, ◌<◌, ◌≤◌, ◌==◌, ◌↔◌, true, false, ◌||◌};
ghost use Rattle.lapi_base.specs.Record.Below.{bits_of};
ghost use Rattle.lapi_window.specs.RecvWindow.{is_taken, base_of};

use crate::number_set::NumberSet;
use crate::took::Took;
use std::marker::Model;

/// The numbers that were taken of those that came over a link.
#[derive(Clone, Copy, Debug)]
pub struct RecvWindow {
    window: u32,
    taken: NumberSet,
}

impl Model for RecvWindow {
    ghost use Rattle.lapi_window.specs.RecvWindow.{Receiving, IsReceiving};

    ghost Value = { Receiving };

    ghost view = { λ w. record { window = w.window; taken = w.taken } };

    ghost invariant = { λ w. IsReceiving (record { window = w.window; taken = w.taken }) };

    ghost inverse = { λ r. record { window = r.window; taken = r.taken } };
}

impl RecvWindow {
    /// A window of that many numbers, none of them taken.
    pub fn new(window: u32) -> RecvWindow
        requires { (1 ≤ window) × (window ≤ 64) }
        ensures window { result.window ≡ window }
        ensures none { (n : ℕ) → is_taken result n ≡ false }
    {
        RecvWindow {
            window,
            taken: NumberSet::new(),
        }
    }

    /// Takes a number, unless it was taken or lies beyond the window.
    pub fn take(&mut self, seq: u32) -> Took
        requires { seq < 4294967295 }
        ensures repeat { (result ≡ Took.Repeat) ↔ (is_taken self.old seq ≡ true) }
        ensures beyond { (result ≡ Took.Beyond) ↔ (base_of self.old + self.old.window ≤ seq) }

        ensures fresh { result ≡ Took.Fresh → (n : ℕ) → is_taken self.new n ≡ (n == seq || is_taken self.old n) }
        ensures unchanged { result ≢ Took.Fresh → self.new ≡ self.old }
        ensures window { self.new.window ≡ self.old.window }
    {
        let base = self.taken.least_absent();
        if self.taken.contains(seq) {
            return Took::Repeat;
        }
        if seq - base >= self.window {
            return Took::Beyond;
        }
        self.taken = self.taken.with(seq);
        Took::Fresh
    }

    /// The least number that was not taken, and which of the next ones were.
    pub fn ack(&self) -> (u32, u64)
        ensures base { result.0 ≡ base_of self.now }
        ensures bits { result.1 ≡ bits_of self.now.window (λ i. is_taken self.now (base_of self.now + i)) }
        ensures absent { is_taken self.now result.0 ≡ false }
    {
        (self.taken.least_absent(), self.taken.bits())
    }
}
