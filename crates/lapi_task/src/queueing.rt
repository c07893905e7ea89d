//! Jobs of completion handlers that wait.
ghost use Rattle.std.specs.Prelude.{◌≡◌, length, option_map, OnOk};
ghost use Rattle.lapi_handlers.specs.Handlers.{rules_of};
ghost use Rattle.lapi_task.specs.Answered.{completion_in, job_with, user_in, completion_counter};
ghost use Rattle.lapi_task.specs.Landed.{FewWait, with_job};

use crate::landing::{announced_by, kept};
use lapi_base::{Head, HeaderOut, Memory};
use lapi_handlers::Handlers;
use lapi_jobs::{Jobs, Pending};
use lapi_memory::TaskMemory;
use lapi_reassembly::Message;

/// The completion handler that the answer names, if there is one of that number.
pub fn completion(handlers: &Handlers, out: Option<HeaderOut>) -> Option<u32>
    ensures { result ≡ completion_in (length (rules_of handlers.now).completions) out }
{
    match out {
        Some(out) => handlers.kept(out.completion),
        None => None,
    }
}

/// The job of that completion handler, if there is one.
pub fn job(message: &Message, memory: &TaskMemory, completion: Option<u32>) -> Option<Pending>
    ensures { result ≡ option_map (job_with (length memory.now) message.now.name message.now.head
        (length message.now.bytes) message.now.out) completion }
{
    let completion = completion?;
    let Message {
        name,
        head,
        bytes,
        out,
    } = message;
    Some(Pending {
        name: *name,
        completion,
        user: user(*out),
        buffer: kept(memory, *out, bytes.as_slice().len()),
        target_counter: announced_by(head, false),
        completion_counter: completion_counter(head),
    })
}

fn user(out: Option<HeaderOut>) -> u32
    ensures { result ≡ user_in out }
{
    match out {
        Some(out) => out.user,
        None => 0,
    }
}

fn completion_counter(head: &Head) -> Option<u32>
    ensures { result ≡ completion_counter head.now }
{
    match head {
        Head::Am { cmpl, .. } => *cmpl,
        Head::Put { .. }
        | Head::Putv { .. }
        | Head::GetGo { .. }
        | Head::GetvGo { .. }
        | Head::RmwGo { .. }
        | Head::GetBack { .. }
        | Head::GetvBack { .. }
        | Head::RmwBack { .. }
        | Head::Note { .. }
        | Head::Echo { .. }
        | Head::Gfence { .. }
        | Head::Addr { .. } => None,
    }
}

/// A job waits behind the others. There is no time for 2^32 of them.
pub fn queue(jobs: &mut Jobs, job: Option<Pending>) -> Result<(), Memory>
    ensures jobs { OnOk result (jobs.new ≡ with_job jobs.old job) }
    ensures few { OnOk result (FewWait jobs.old → FewWait jobs.new) }
{
    let Some(job) = job else {
        return Ok(());
    };
    if jobs.queued() >= u32::MAX as usize {
        return Err(Memory);
    }
    jobs.queue(job)
}
