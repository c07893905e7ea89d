use lapi_base::{CompletionRule, HeaderIn, Status};
use lapi_handlers::{
    CompletionFn, Handlers, HeaderFn, WORD, WORD_AND_CHOICE, nothing, sum, word, word_and_choice,
};
use lapi_io::{MemSink, SureSource};
use lapi_live::OpenGate;
use lapi_tool::{run, run_live};
use std::alloc::Global;
use std::process::Abort;
use std::str;
use std::sync::Wait;
use std::test::Fail;
use std::thread::Threads;

/// A put over the buffer of a running handler, whose worker has a lane of its own.
const SCRIPT: &str = "lapi 1
tasks 2 memory 64 counters 4 workers 1
task 0
store 0 01020304
amsend 1 1 000000100000002000000001 0 4 0 - 0
put 1 16 4 4 - - -
task 1
schedule
";

const LANES: &str = "0 step 0
0 step 0
0 step 0
0 poll 0
0 deliver 0 1 0
1 begin 1 0
0 deliver 0 1 1
1 end 1 0
";

/// How often the lanes run.
const RUNS: u32 = 200;

fn input_of(alloc: Global, lines: &str) -> Result<Vec<u8>, Fail> {
    let text = format!(in alloc; "{SCRIPT}{lines}done\n")?;
    Ok(Vec::from_slice(alloc, text.as_bytes())?)
}

fn words_of(alloc: Global, word: &str) -> Result<Vec<String>, Fail> {
    let mut words = Vec::new(alloc);
    words.push(String::from_str(alloc, word)?)?;
    Ok(words)
}

/// Runs the lanes, and then their lines once more in the order in which they were taken, on one thread.
fn has_the_report_of_its_lines<R: Abort + Threads + Wait + Sync>(
    rt: &R,
    alloc: Global,
    handlers: &Handlers,
) -> Result<(), Fail> {
    let words = words_of(alloc, "live")?;
    let mut source = SureSource::new(input_of(alloc, LANES)?);
    let mut sink = MemSink::new(alloc, 4096, 4096, Vec::new(alloc))?;
    let status = run_live(
        rt,
        alloc,
        &words,
        &mut source,
        &mut sink,
        handlers,
        &OpenGate,
    );
    assert_eq!(rt; status, Status::Ok);
    let text = str::from_utf8(sink.held())?;

    let mut taken = String::new(alloc);
    let mut report = String::new(alloc);
    for line in text.lines() {
        let (part, line) = match line.strip_prefix("took ") {
            Some(line) => (&mut taken, line),
            None => (&mut report, line),
        };
        part.push_str(line)?;
        part.push_str("\n")?;
    }
    let words = words_of(alloc, "run")?;
    let mut source = SureSource::new(input_of(alloc, taken.as_str())?);
    let mut sink = MemSink::new(alloc, 4096, 4096, Vec::new(alloc))?;
    let status = run(alloc, &words, &mut source, &mut sink, handlers);
    assert_eq!(rt; status, Status::Ok);
    assert_eq!(rt; sink.held(), report.as_bytes(), "{text}");
    Ok(())
}

#[test]
fn each_report_is_that_of_the_lines_in_the_order_told(rt: HostRuntime) -> Result<(), Fail> {
    let alloc = rt.alloc();
    let mut headers = Vec::new(alloc);
    headers.push(HeaderFn::new(WORD, Box::new(alloc, |given: &HeaderIn| word(given))?))?;
    headers.push(HeaderFn::new(
        WORD_AND_CHOICE,
        Box::new(alloc, |given: &HeaderIn| word_and_choice(given))?,
    ))?;
    let mut completions = Vec::new(alloc);
    completions.push(CompletionFn::new(
        CompletionRule::Nothing,
        Box::new(alloc, |user: u32, buffer: &[u8]| nothing(user, buffer))?,
    ))?;
    completions.push(CompletionFn::new(
        CompletionRule::Sum,
        Box::new(alloc, |user: u32, buffer: &[u8]| sum(user, buffer))?,
    ))?;
    let handlers = Handlers::new(headers, completions);
    for _ in 0..RUNS {
        has_the_report_of_its_lines(&rt, alloc, &handlers)?;
    }
    Ok(())
}
