use crate::pending::Pending;

/// What comes of telling a worker to begin.
#[derive(Clone, Copy, Debug, Eq, PartialEq)]
pub enum Began {
    /// The worker runs this job from now on.
    Job(Pending),
    /// No job waits.
    Idle,
    /// The worker runs a job already.
    Busy,
}
