ghost use Rattle.std.specs.Prelude.{◌≡◌, ◌<◌, ◌-◌, ◌==◌, IfOk, length, replicate, slice_index, slice_set};

use lapi_base::Memory;
use std::alloc::Global;
use std::marker::Model;

/// How many numbers of each statement's message are not acknowledged.
#[derive(Debug, Drop)]
pub struct Unacknowledged {
    left: Vec<u32>,
}

impl Model for Unacknowledged {
    ghost use Rattle.std.specs.Prelude.{List, ℕ};

    ghost Value = { List ℕ };

    ghost view = { λ u. u.left.items };
}

impl Unacknowledged {
    /// So many statements, none with a number.
    pub fn new(alloc: Global, statements: u32) -> Result<Unacknowledged, Memory>
        ensures { IfOk result (λ made. made ≡ replicate statements 0) }
    {
        let left = vec![in alloc; 0; statements as usize]?;
        Ok(Unacknowledged { left })
    }

    /// The statement's message got so many numbers.
    pub fn begin(&mut self, statement: u32, count: u32)
        requires { statement < length self.old }
        ensures { self.new ≡ slice_set self.old statement count }
    {
        self.left[statement as usize] = count;
    }

    /// One of its numbers was acknowledged; whether that was the last.
    pub fn acked(&mut self, statement: u32) -> bool
        requires known { statement < length self.old }
        requires one { 0 < slice_index self.old statement }
        ensures lowered { self.new ≡ slice_set self.old statement (slice_index self.old statement - 1) }
        ensures last { result ≡ (slice_index self.old statement == 1) }
    {
        let left = &mut self.left[statement as usize];
        *left -= 1;
        *left == 0
    }
}
