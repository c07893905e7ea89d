ghost use Rattle.std.specs.Prelude.{◌≡◌, ℕ, ◌+◌, ◌-◌, ◌/◌, ◌^◌, ◌<◌, ◌≤◌, ◌==◌, ◌↔◌, IsTrue, true, false, not, ◌||◌, length, slice_get, Some};
ghost use Rattle.lapi_base.specs.Record.Below.{below, has_bit};
ghost use Rattle.lapi_window.specs.NumberSet.{is_in, is_covered};

use std::marker::Model;

/// A set of numbers that grows from 0 upwards: each number below a base, and some of the next 64.
#[derive(Clone, Copy, Debug)]
pub struct NumberSet {
    base: u32,
    // Bit i tells whether base + i is in the set. The base itself never is, so bit 0 is clear:
    //
    //   bit     63 ..  4   3   2   1   0
    //           0  ..  0   1   0   1   0
    //
    // Here each number below base, base + 1 and base + 3 are in the set, and no other.
    above: u64,
}

impl Model for NumberSet {
    ghost use Rattle.std.specs.Prelude.{◌≡◌, ℕ, ◌+◌, ◌^◌, ◌<◌, true, false};
    ghost use Rattle.lapi_base.specs.Record.Below.{has_bit};
    ghost use Rattle.lapi_window.specs.NumberSet.{Members, flags_of, number_of};
    ghost use Rattle.std.proofs.Common.{ap};
    ghost use Rattle.lapi_window.specs.Flags.{number_of-flags_of};

    ghost Value = { Members };

    ghost view = { λ set. record { base = set.base; flags = flags_of 64 set.above } };

    ghost invariant = { λ set. (set.above < 2 ^ 64) × (has_bit set.above 0 ≡ false) × ((i : ℕ) → has_bit set.above i ≡ true → set.base + i + 1 < 2 ^ 32) };

    ghost inverse = { λ members. record { base = members.base; above = number_of members.flags } };

    ghost inverse_ok = { λ set holds. ap (λ (bits : ℕ). record set { above = bits }) (number_of-flags_of 64 set.above holds.0) };
}

impl NumberSet {
    pub fn new() -> NumberSet
        ensures base { result.base ≡ 0 }
        ensures none { (n : ℕ) → is_in result n ≡ false }
    {
        NumberSet { base: 0, above: 0 }
    }

    /// The least number that is not in the set.
    pub fn least_absent(self) -> u32
        ensures base { result ≡ self.base }
        ensures absent { is_in self result ≡ false }
    {
        self.base
    }

    pub fn contains(self, n: u32) -> bool
        ensures { result ≡ is_in self n }
    {
        covers(self.base, self.above, n)
    }

    /// For each i, whether the number i above the least absent one is in the set.
    pub fn bits(self) -> u64
        ensures { (i : ℕ) → has_bit result i ≡ is_in self (self.base + i) }
    {
        self.above
    }

    /// The set with a number that lies at most 63 above the least absent one.
    pub fn with(self, n: u32) -> NumberSet
        requires near { (self.base ≤ n) × (n < self.base + 64) }
        requires small { n + 1 < 2 ^ 32 }
        ensures set { (k : ℕ) → is_in result k ≡ (k == n || is_in self k) }
        ensures absent { is_in result result.base ≡ false }
    {
        settled(self.base, self.above | 1 << (n - self.base))
    }

    /// The set with what an acknowledgement covers.
    pub fn union(self, base: u32, bits: u64) -> NumberSet
        requires small { (n : ℕ) → is_covered base bits n ≡ true → n + 1 < 2 ^ 32 }
        ensures set { (n : ℕ) → is_in result n ≡ (is_in self n || is_covered base bits n) }
        ensures absent { is_in result result.base ≡ false }
    {
        let start = self.base.max(base);
        let word = shifted(self.above, start - self.base) | shifted(bits, start - base);
        settled(start, word)
    }

    /// Whether each number from `from` up to but not `to` is in the set.
    pub fn contains_all(self, from: u32, to: u32) -> bool
        ensures { IsTrue result ↔ ((n : ℕ) → from ≤ n → n < to → is_in self n ≡ true) }
    {
        let first = from.max(self.base);
        first >= to || shifted(self.above, first - self.base).trailing_ones() >= to - first
    }

    /// How many numbers below `end` are not in the set.
    pub fn absent_count(self, end: u32) -> u32
        requires { (n : ℕ) → is_in self n ≡ true → n < end }
        ensures { result ≡ length (below end (λ n. not (is_in self n))) }
    {
        end - self.base - self.above.count_ones()
    }

    /// The number at place `index` among those below `end` that are not in the set.
    pub fn absent_at(self, index: usize, end: u32) -> u32
        requires { index < length (below end (λ n. not (is_in self n))) }
        ensures { slice_get (below end (λ n. not (is_in self n))) index ≡ Some result }
    {
        let mut number = self.base;
        let mut left = index;
        while left > 0 || self.contains(number) {
            if !self.contains(number) {
                left -= 1;
            }
            number += 1;
        }
        number
    }
}

/// Whether an acknowledgement covers a number: one below its base, or base + i for a bit i that is set.
pub fn covers(base: u32, bits: u64, n: u32) -> bool
    ensures { result ≡ is_covered base bits n }
{
    n < base || shifted(bits, n - base) % 2 == 1
}

// The word without its lowest bits.
fn shifted(word: u64, places: u32) -> u64
    ensures { result ≡ word / 2 ^ places }
{
    word.checked_shr(places).unwrap_or(0)
}

// The numbers below `start`, and start + i for each bit i of the word; bit 0 may be set.
fn settled(start: u32, word: u64) -> NumberSet
    requires { (i : ℕ) → has_bit word i ≡ true → start + i + 1 < 2 ^ 32 }
    ensures set { (n : ℕ) → is_in result n ≡ is_covered start word n }
    ensures absent { is_in result result.base ≡ false }
{
    let run = word.trailing_ones();
    NumberSet {
        base: start + run,
        above: shifted(word, run),
    }
}
