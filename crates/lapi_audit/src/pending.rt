//! Which of each task's data are under way.
ghost use Rattle.std.specs.Prelude.{◌≡◌, ◌<◌, length, replicate, slice_index_or, slice_set, IfOk};

use lapi_base::{Memory, Script};
use std::alloc::Global;

/// The first statement of each task whose data are under way; its next statement where there is none.
#[derive(Debug, Drop)]
pub struct Pending {
    first: Vec<u32>,
}

impl Pending {
    /// No statement came yet.
    pub fn new(alloc: Global, script: &Script) -> Result<Pending, Memory>
        ensures { IfOk result (λ made. made.first.items ≡ replicate script.now.tasks 0) }
    {
        let first = vec![in alloc; 0; script.tasks as usize]?;
        Ok(Pending { first })
    }

    pub fn first(&self, task: u32) -> u32
        requires { task < length self.now.first.items }
        ensures { result ≡ slice_index_or self.now.first.items task 0 }
    {
        self.first[task as usize]
    }

    pub fn set_first(&mut self, task: u32, i: u32)
        requires { task < length self.old.first.items }
        ensures { self.new.first.items ≡ slice_set self.old.first.items task i }
    {
        self.first[task as usize] = i;
    }
}
