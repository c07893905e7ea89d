use lapi_base::{CompletionRule, HeaderIn, Status};
use lapi_handlers::{
    CompletionFn, Handlers, HeaderFn, WORD, WORD_AND_CHOICE, nothing, sum, word, word_and_choice,
};
use lapi_io::{CountSink, SureSource};
use lapi_tool::run;
use std::alloc::Global;
use std::sync::Arc;
use std::sync::atomic::{AtomicU64, Ordering};
use std::test::Fail;

/// An input, and how often header and completion handlers are called as it runs.
type CallsRow = (&'static str, u64, u64);

const CALLS: [CallsRow; 4] = [
    // The last packet of an active message comes first.
    (
        "lapi 1\ntasks 2 memory 2048 counters 4 workers 1\ntask 0\n\
         amsend 1 0 00000400 0 1024 0 - -\ntask 1\nschedule\n0 step 0\n0 poll 0\n\
         0 deliver 0 1 3\n0 deliver 0 1 0\n0 deliver 0 1 1\n0 deliver 0 1 2\ndone\n",
        1,
        0,
    ),
    // Packets come twice, and one that was lost is sent again.
    (
        "lapi 1\ntasks 2 memory 2048 counters 4 workers 1\ntask 0\n\
         amsend 1 0 00000400 0 1024 0 - -\ntask 1\nschedule\n0 step 0\n0 poll 0\n\
         0 deliver 0 1 3\n0 deliver 0 1 3\n0 deliver 0 1 0\n0 deliver 0 1 2\n0 tick 0\n\
         0 deliver 0 1 4\n0 deliver 0 1 5\n0 deliver 0 1 5\n0 deliver 0 1 7\ndone\n",
        1,
        0,
    ),
    // A worker runs the job of a message.
    (
        "lapi 1\ntasks 2 memory 64 counters 4 workers 1\ntask 0\nstore 0 01020304\n\
         amsend 1 1 000000100000002000000001 0 4 0 - 0\nput 1 16 4 4 - - -\ntask 1\nschedule\n\
         0 step 0\n0 step 0\n0 step 0\n0 poll 0\n0 deliver 0 1 0\n0 begin 1 0\n\
         0 deliver 0 1 1\n0 end 1 0\ndone\n",
        1,
        1,
    ),
    // Its packet comes twice, and the worker is told twice.
    (
        "lapi 1\ntasks 2 memory 64 counters 4 workers 1\ntask 0\nstore 0 01020304\n\
         amsend 1 1 000000100000002000000001 0 4 0 - 0\ntask 1\nschedule\n\
         0 step 0\n0 step 0\n0 poll 0\n0 deliver 0 1 0\n0 deliver 0 1 0\n0 begin 1 0\n\
         0 begin 1 0\n0 deliver 0 1 0\n0 end 1 0\n0 end 1 0\n0 begin 1 0\ndone\n",
        1,
        1,
    ),
];

/// Runs an input with handlers that count their calls.
fn calls(alloc: Global, text: &str) -> Result<(Status, u64, u64), Fail> {
    let heads = Arc::new(alloc, AtomicU64::new(0))?;
    let ends = Arc::new(alloc, AtomicU64::new(0))?;
    let (first_head, second_head) = (heads.clone()?, heads.clone()?);
    let (first_end, second_end) = (ends.clone()?, ends.clone()?);
    let mut headers = Vec::new(alloc);
    headers.push(HeaderFn::new(
        WORD,
        Box::new(alloc, move |given: &HeaderIn| {
            first_head.fetch_add(1, Ordering::SeqCst);
            word(given)
        })?,
    ))?;
    headers.push(HeaderFn::new(
        WORD_AND_CHOICE,
        Box::new(alloc, move |given: &HeaderIn| {
            second_head.fetch_add(1, Ordering::SeqCst);
            word_and_choice(given)
        })?,
    ))?;
    let mut completions = Vec::new(alloc);
    completions.push(CompletionFn::new(
        CompletionRule::Nothing,
        Box::new(alloc, move |user: u32, buffer: &[u8]| {
            first_end.fetch_add(1, Ordering::SeqCst);
            nothing(user, buffer)
        })?,
    ))?;
    completions.push(CompletionFn::new(
        CompletionRule::Sum,
        Box::new(alloc, move |user: u32, buffer: &[u8]| {
            second_end.fetch_add(1, Ordering::SeqCst);
            sum(user, buffer)
        })?,
    ))?;
    let handlers = Handlers::new(headers, completions);
    let mut words = Vec::new(alloc);
    words.push(String::from_str(alloc, "run")?)?;
    let mut source = SureSource::new(Vec::from_slice(alloc, text.as_bytes())?);
    let mut sink = CountSink::new();
    let status = run(alloc, &words, &mut source, &mut sink, &handlers);
    Ok((
        status,
        heads.load(Ordering::SeqCst),
        ends.load(Ordering::SeqCst),
    ))
}

#[test]
fn each_message_calls_its_handlers_once(rt: HostRuntime) -> Result<(), Fail> {
    for (text, heads, ends) in CALLS {
        let counted = calls(rt.alloc(), text)?;
        assert_eq!(rt; counted, (Status::Ok, heads, ends), "{text}");
    }
    Ok(())
}
