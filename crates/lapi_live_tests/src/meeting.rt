use lapi_live::Gate;
use std::alloc::{AllocError, Global};
use std::sync::atomic::{AtomicBool, Ordering};
use std::thread;

/// How often a worker looks whether the others have come.
const LOOKS: u32 = 100_000_000;

/// Where the workers of some tasks, one of each, wait for one another.
#[derive(Drop)]
pub struct Meeting {
    /// By task: whether its worker has come.
    come: Vec<AtomicBool>,
    /// By task: whether its worker saw that all had come, while it was here.
    met: Vec<AtomicBool>,
}

impl Meeting {
    pub fn new(alloc: Global, tasks: u32) -> Result<Meeting, AllocError> {
        let mut come = Vec::new(alloc);
        let mut met = Vec::new(alloc);
        for _ in 0..tasks {
            come.push(AtomicBool::new(false))?;
            met.push(AtomicBool::new(false))?;
        }
        Ok(Meeting { come, met })
    }

    /// Holds the worker of a task until all have come, or it has looked often enough.
    pub fn meet(&self, task: u32) {
        note(&self.come, task);
        for _ in 0..LOOKS {
            if are_all_noted(&self.come) {
                note(&self.met, task);
                return;
            }
            thread::yield_now();
        }
    }

    /// Whether each worker saw all others while it was here.
    pub fn have_all_met(&self) -> bool {
        are_all_noted(&self.met)
    }
}

impl Gate for Meeting {
    fn between(&self, task: u32, _worker: u32) {
        self.meet(task);
    }
}

fn note(flags: &Vec<AtomicBool>, task: u32) {
    if let Some(flag) = flags.get(task as usize) {
        flag.store(true, Ordering::SeqCst);
    }
}

fn are_all_noted(flags: &Vec<AtomicBool>) -> bool {
    for flag in flags {
        if !flag.load(Ordering::SeqCst) {
            return false;
        }
    }
    true
}
