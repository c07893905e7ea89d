ghost use Rattle.std.specs.Prelude.{◌≡◌, ◌<◌, ◌+◌, ◌*◌, set, replicate, slice_index_or, Some, None, IfOk};

use lapi_base::Memory;
use lapi_handlers::Finished;
use std::alloc::Global;
use std::marker::Model;

/// How many workers there may be in all: four of each of eight tasks.
const MOST_WORKERS: u32 = 32;

/// What became of the jobs that have begun, until they end: that of worker `w` of task `t` at place `4 * t + w`.
#[derive(Drop)]
pub struct FinishedJobs {
    places: Vec<Option<Finished>>,
}

impl Model for FinishedJobs {
    ghost use Rattle.std.specs.Prelude.{◌≡◌, List, Option, length};
    ghost use Rattle.lapi_handlers.specs.declared.finished.Finished.{Finished};

    ghost Value = { List (Option Finished) };

    ghost view = { λ jobs. jobs.places.items };

    ghost invariant = { λ jobs. length jobs.places.items ≡ 32 };
}

impl FinishedJobs {
    /// No worker has a job.
    pub fn new(alloc: Global) -> Result<FinishedJobs, Memory>
        ensures { IfOk result (λ jobs. jobs ≡ replicate 32 None) }
    {
        let mut places = Vec::new(alloc);
        for _place in 0..MOST_WORKERS {
            places.push(None)?;
        }
        Ok(FinishedJobs { places })
    }

    /// Keeps a job until its worker's End.
    pub fn put(&mut self, finished: Finished)
        requires { (finished.task < 8) × (finished.worker < 4) }
        ensures { self.new ≡ set self.old (finished.task * 4 + finished.worker) (Some finished) }
    {
        let place = place_of(finished.task, finished.worker);
        self.places[place] = Some(finished);
    }

    /// Takes the job of a worker, if it has one.
    pub fn take(&mut self, task: u32, worker: u32) -> Option<Finished>
        requires { (task < 8) × (worker < 4) }
        ensures taken { result ≡ slice_index_or self.old (task * 4 + worker) None }
        ensures left { self.new ≡ set self.old (task * 4 + worker) None }
    {
        let place = place_of(task, worker);
        self.places[place].take()
    }
}

fn place_of(task: u32, worker: u32) -> usize
    requires { (task < 8) × (worker < 4) }
    ensures { result ≡ task * 4 + worker }
{
    (task * 4 + worker) as usize
}
