ghost use Rattle.std.specs.Prelude.{◌≡◌, ◌+◌, ◌-◌, ◌^◌, ◌<◌, ◌≤◌, ◌↔◌, IsTrue, false, cond, IfOk, length, replicate, slice_index, slice_set};

use lapi_base::Memory;
use std::alloc::Global;
use std::marker::Model;

/// The counters of a task, by their numbers.
#[derive(Debug, Drop)]
pub struct Counters {
    values: Vec<u64>,
}

impl Model for Counters {
    ghost use Rattle.std.specs.Prelude.{List, ℕ};

    ghost Value = { List ℕ };

    ghost view = { λ counters. counters.values.items };
}

impl Counters {
    /// So many counters, all 0.
    pub fn new(alloc: Global, n: u32) -> Result<Counters, Memory>
        ensures { IfOk result (λ made. made ≡ replicate n 0) }
    {
        let values = vec![in alloc; 0; n as usize]?;
        Ok(Counters { values })
    }

    /// How many counters there are.
    pub fn count(&self) -> usize
        ensures { result ≡ length self.now }
    {
        self.values.len()
    }

    /// Counts one event.
    pub fn announce(&mut self, c: u32)
        requires known { c < length self.old }
        requires small { slice_index self.old c < 2 ^ 63 }
        ensures { self.new ≡ slice_set self.old c (slice_index self.old c + 1) }
    {
        self.values[c as usize] += 1;
    }

    /// Takes the value from the counter, where it has as much; whether it did.
    pub fn try_wait(&mut self, c: u32, value: u32) -> bool
        requires { c < length self.old }
        ensures enough { IsTrue result ↔ (value ≤ slice_index self.old c) }
        ensures taken { IsTrue result → self.new ≡ slice_set self.old c (slice_index self.old c - value) }
        ensures kept { result ≡ false → self.new ≡ self.old }
    {
        let counter = &mut self.values[c as usize];
        match counter.checked_sub(value as u64) {
            Some(left) => {
                *counter = left;
                true
            }
            None => false,
        }
    }

    pub fn set(&mut self, c: u32, value: u32)
        requires { c < length self.old }
        ensures { self.new ≡ slice_set self.old c value }
    {
        self.values[c as usize] = value as u64;
    }

    pub fn get(&self, c: u32) -> u64
        requires { c < length self.now }
        ensures { result ≡ slice_index self.now c }
    {
        self.values[c as usize]
    }
}
