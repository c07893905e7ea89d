ghost use Rattle.std.specs.Prelude.{◌≡◌, ◌<◌, [], ◌∷◌, ◌++◌, length, replicate, None, IfOk, OnOk, OnErr, option_map};
ghost use Rattle.lapi_jobs.specs.Jobs.{run_by, count_running, with_run, Begins};

use crate::began::Began;
use crate::pending::Pending;
use lapi_base::Memory;
use std::alloc::Global;
use std::collections::VecDeque;
use std::marker::Model;

/// The jobs of one task, first in, first out; each worker runs one at most.
#[derive(Debug, Drop)]
pub struct Jobs {
    waiting: VecDeque<Pending>,
    workers: Vec<Option<Pending>>,
}

impl Model for Jobs {
    ghost use Rattle.lapi_jobs.specs.Jobs.{Works};

    ghost Value = { Works };

    ghost view = { λ jobs. record { waiting = jobs.waiting.items; workers = jobs.workers.items } };
}

impl Jobs {
    /// No job waits, and so many workers run none.
    pub fn new(alloc: Global, workers: u32) -> Result<Jobs, Memory>
        ensures { IfOk result (λ made. made ≡ record { waiting = []; workers = replicate workers None }) }
    {
        let workers = vec![in alloc; None; workers as usize]?;
        Ok(Jobs {
            waiting: VecDeque::new(alloc),
            workers,
        })
    }

    /// A job waits behind the others.
    pub fn queue(&mut self, job: Pending) -> Result<(), Memory>
        ensures ok { OnOk result (self.new ≡ record self.old { waiting = self.old.waiting ++ job ∷ [] }) }
        ensures err { OnErr result (self.new ≡ self.old) }
    {
        self.waiting.push_back(job)?;
        Ok(())
    }

    /// Tells a worker to begin the oldest job that waits.
    pub fn begin(&mut self, worker: u32) -> Began
        requires { worker < length self.old.workers }
        ensures begins { Begins self.old worker result self.new }
        ensures workers { length self.new.workers ≡ length self.old.workers }
    {
        if self.workers[worker as usize].is_some() {
            return Began::Busy;
        }
        match self.waiting.pop_front() {
            Some(job) => {
                self.workers[worker as usize] = Some(job);
                Began::Job(job)
            }
            None => Began::Idle,
        }
    }

    /// The worker's job ends; `None` where it runs none.
    pub fn end(&mut self, worker: u32) -> Option<Pending>
        requires { worker < length self.old.workers }
        ensures ended { result ≡ run_by self.old worker }
        ensures free { self.new ≡ with_run self.old worker None }
        ensures workers { length self.new.workers ≡ length self.old.workers }
    {
        self.workers[worker as usize].take()
    }

    /// The job that a worker runs, if it runs one.
    pub fn run(&self, worker: u32) -> Option<&Pending>
        requires { worker < length self.now.workers }
        ensures { option_map (λ job. job.now) result ≡ run_by self.now worker }
    {
        self.workers[worker as usize].as_ref()
    }

    /// How many jobs wait.
    pub fn queued(&self) -> usize
        ensures { result ≡ length self.now.waiting }
    {
        self.waiting.len()
    }

    /// How many workers run a job.
    pub fn running(&self) -> usize
        ensures { result ≡ count_running self.now }
    {
        self.workers.iter().filter(|job| job.is_some()).count()
    }
}
