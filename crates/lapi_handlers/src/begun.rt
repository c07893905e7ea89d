use crate::job::Job;

/// What comes of telling a worker to begin.
#[derive(Debug, Drop)]
pub enum Begun {
    /// The oldest job in the queue; the worker runs it from now on.
    Job(Job),
    /// No job is in the queue.
    Idle,
    /// The worker runs a job already.
    Busy,
}
