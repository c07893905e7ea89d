use lapi_base::{Leg, MsgName, Span};
use lapi_jobs::{Began, Jobs, Pending};
use std::test::Fail;

fn job(statement: u32) -> Pending {
    let name = MsgName {
        origin: 0,
        statement,
        leg: Leg::Go,
    };
    Pending {
        name,
        completion: 1,
        user: 32,
        buffer: Some(Span { at: 16, len: 4 }),
        target_counter: None,
        completion_counter: Some(0),
    }
}

#[test]
fn the_oldest_job_begins_first(rt: HostRuntime) -> Result<(), Fail> {
    let mut jobs = Jobs::new(rt.alloc(), 2)?;
    assert_eq!(rt; jobs.begin(1), Began::Idle);
    jobs.queue(job(0))?;
    jobs.queue(job(1))?;
    jobs.queue(job(2))?;
    assert_eq!(rt; jobs.begin(1), Began::Job(job(0)));
    assert_eq!(rt; jobs.begin(1), Began::Busy);
    assert_eq!(rt; jobs.begin(0), Began::Job(job(1)));
    assert_eq!(rt; (jobs.queued(), jobs.running()), (1, 2));
    assert_eq!(rt; jobs.run(0), Some(&job(1)));
    assert_eq!(rt; jobs.end(1), Some(job(0)));
    assert_eq!(rt; jobs.run(1), None);
    assert_eq!(rt; jobs.end(1), None);
    assert_eq!(rt; jobs.begin(1), Began::Job(job(2)));
    assert_eq!(rt; (jobs.queued(), jobs.running()), (0, 2));
    Ok(())
}
