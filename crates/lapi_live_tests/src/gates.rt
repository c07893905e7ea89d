use crate::meeting::Meeting;
use lapi_base::{CompletionRule, HeaderIn, Status};
use lapi_handlers::{
    CompletionFn, Handlers, HeaderFn, WORD, WORD_AND_CHOICE, nothing, word, word_and_choice,
};
use lapi_io::{MemSink, SureSource};
use lapi_live::{Gate, OpenGate};
use lapi_tool::run_live;
use std::alloc::Global;
use std::process::Abort;
use std::str;
use std::sync::{Arc, Wait};
use std::test::Fail;
use std::thread::Threads;

/// Each task sends a message to itself and lands it in a lane of its own, and its worker runs the job.
const TWO: &str = "lapi 1
tasks 2 memory 64 counters 4 workers 1
task 0
amsend 0 1 000000000000000000000000 0 4 - - -
task 1
amsend 1 1 000000000000000100000000 0 4 - - -
schedule
0 step 0
0 poll 0
0 deliver 0 0 0
0 begin 0 0
0 end 0 0
1 step 1
1 poll 1
1 deliver 1 1 0
1 begin 1 0
1 end 1 0
done
";

const TWO_REPORT: &str = "lines 10
events 12
task 0 at 1 of 1 queued 0 running 0
task 1 at 1 of 1 queued 0 running 0
quiet no
";

const THREE: &str = "lapi 1
tasks 3 memory 64 counters 4 workers 1
task 0
amsend 0 1 000000000000000000000000 0 4 - - -
task 1
amsend 1 1 000000000000000100000000 0 4 - - -
task 2
amsend 2 1 000000000000000200000000 0 4 - - -
schedule
0 step 0
0 poll 0
0 deliver 0 0 0
0 begin 0 0
0 end 0 0
1 step 1
1 poll 1
1 deliver 1 1 0
1 begin 1 0
1 end 1 0
2 step 2
2 poll 2
2 deliver 2 2 0
2 begin 2 0
2 end 2 0
done
";

const THREE_REPORT: &str = "lines 15
events 18
task 0 at 1 of 1 queued 0 running 0
task 1 at 1 of 1 queued 0 running 0
task 2 at 1 of 1 queued 0 running 0
quiet no
";

/// Runs the lanes of an input, with a meeting in the gate and one in the completion handler, where there are some.
/// It is answered with so many lines taken and then this report.
fn run_lanes<R: Abort + Threads + Wait + Sync, G: Gate + Sync>(
    rt: &R,
    alloc: Global,
    text: &str,
    gate: &G,
    inside: Option<Arc<Meeting>>,
    lines: usize,
    report: &str,
) -> Result<(), Fail> {
    let mut headers = Vec::new(alloc);
    headers.push(HeaderFn::new(WORD, Box::new(alloc, |given: &HeaderIn| word(given))?))?;
    headers.push(HeaderFn::new(
        WORD_AND_CHOICE,
        Box::new(alloc, |given: &HeaderIn| word_and_choice(given))?,
    ))?;
    let mut completions = Vec::new(alloc);
    completions.push(CompletionFn::new(
        CompletionRule::Nothing,
        Box::new(alloc, move |user: u32, buffer: &[u8]| {
            if let Some(meeting) = &inside {
                meeting.meet(user);
            }
            nothing(user, buffer)
        })?,
    ))?;
    let handlers = Handlers::new(headers, completions);
    let mut words = Vec::new(alloc);
    words.push(String::from_str(alloc, "live")?)?;
    let mut source = SureSource::new(Vec::from_slice(alloc, text.as_bytes())?);
    let mut sink = MemSink::new(alloc, 4096, 4096, Vec::new(alloc))?;
    let status = run_live(rt, alloc, &words, &mut source, &mut sink, &handlers, gate);
    assert_eq!(rt; status, Status::Ok);
    has_report(rt, str::from_utf8(sink.held())?, lines, report)
}

/// So many lines are told as taken, and then comes this report.
fn has_report(rt: &impl Abort, text: &str, lines: usize, report: &str) -> Result<(), Fail> {
    let mut told = 0usize;
    for line in text.lines() {
        if line.starts_with("took ") {
            told = told.saturating_add(1);
        }
    }
    assert_eq!(rt; told, lines);
    assert!(rt; text.ends_with(report), "{text}");
    Ok(())
}

#[test]
fn two_workers_are_between_begin_and_handler_at_once(rt: HostRuntime) -> Result<(), Fail> {
    let alloc = rt.alloc();
    let gate = Meeting::new(alloc, 2)?;
    run_lanes(&rt, alloc, TWO, &gate, None, 10, TWO_REPORT)?;
    assert!(rt; gate.have_all_met());
    Ok(())
}

#[test]
fn three_workers_are_between_begin_and_handler_at_once(rt: HostRuntime) -> Result<(), Fail> {
    let alloc = rt.alloc();
    let gate = Meeting::new(alloc, 3)?;
    run_lanes(&rt, alloc, THREE, &gate, None, 15, THREE_REPORT)?;
    assert!(rt; gate.have_all_met());
    Ok(())
}

#[test]
fn two_workers_are_in_their_handlers_at_once(rt: HostRuntime) -> Result<(), Fail> {
    let alloc = rt.alloc();
    let meeting = Arc::new(alloc, Meeting::new(alloc, 2)?)?;
    let inside = Some(meeting.clone()?);
    run_lanes(&rt, alloc, TWO, &OpenGate, inside, 10, TWO_REPORT)?;
    assert!(rt; meeting.have_all_met());
    Ok(())
}
