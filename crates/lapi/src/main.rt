//! The command `lapi`, over standard input and output.
#![tactic(auto)]

use lapi_base::{CompletionRule, HeaderIn, Status};
use lapi_handlers::{
    CompletionFn, Handlers, HeaderFn, NOWHERE, PER_ORIGIN, WORD, WORD_AND_CHOICE, nothing, nowhere,
    per_origin, reversed, same, sum, sum_back, word, word_and_choice,
};
use lapi_io::{StdSink, StdSource};
use lapi_live::OpenGate;
use lapi_tool::{run, run_live};
use std::io::{BufWriter, Write};
use std::process::ExitCode;
use std::sync::Wait;
use std::thread::Threads;
use std::{env, io};

/// Ends with the status' number; nothing goes to standard error.
fn main(rt: HostRuntime) -> ExitCode {
    let status = answer(&rt, &rt).unwrap_or(Status::Memory);
    ExitCode::from(status as u8)
}

/// Makes the handlers and runs the command with them. Where there is no memory for one, nothing is read or written.
/// `threads` is the runtime once more, as what can make threads and wait for them.
fn answer<R: Threads + Wait + Sync>(rt: &HostRuntime, threads: &R) -> io::Result<Status> {
    let alloc = rt.alloc();
    let words = words(rt)?;
    let mut headers = Vec::new(alloc);
    headers.push(HeaderFn::new(WORD, Box::new(alloc, |given: &HeaderIn| word(given))?))?;
    headers.push(HeaderFn::new(
        WORD_AND_CHOICE,
        Box::new(alloc, |given: &HeaderIn| word_and_choice(given))?,
    ))?;
    headers.push(HeaderFn::new(
        PER_ORIGIN,
        Box::new(alloc, |given: &HeaderIn| per_origin(given))?,
    ))?;
    headers.push(HeaderFn::new(NOWHERE, Box::new(alloc, |given: &HeaderIn| nowhere(given))?))?;
    let mut completions = Vec::new(alloc);
    completions.push(CompletionFn::new(
        CompletionRule::Nothing,
        Box::new(alloc, |user: u32, buffer: &[u8]| nothing(user, buffer))?,
    ))?;
    completions.push(CompletionFn::new(
        CompletionRule::Sum,
        Box::new(alloc, |user: u32, buffer: &[u8]| sum(user, buffer))?,
    ))?;
    completions.push(CompletionFn::new(
        CompletionRule::Same,
        Box::new(alloc, |user: u32, buffer: &[u8]| same(user, buffer))?,
    ))?;
    completions.push(CompletionFn::new(
        CompletionRule::Reversed,
        Box::new(alloc, |user: u32, buffer: &[u8]| reversed(user, buffer))?,
    ))?;
    completions.push(CompletionFn::new(
        CompletionRule::Answer,
        Box::new(alloc, |user: u32, buffer: &[u8]| sum_back(user, buffer))?,
    ))?;
    let handlers = Handlers::new(headers, completions);
    command(rt, threads, &words, &handlers)
}

/// Runs the command with standard output behind a buffer. What is left in it when the command ends is written then, and
/// where that fails the status is that of a text that couldn't be written.
fn command<R: Threads + Wait + Sync>(
    rt: &HostRuntime,
    threads: &R,
    words: &Vec<String>,
    handlers: &Handlers,
) -> io::Result<Status> {
    let mut out = BufWriter::new(rt.alloc(), rt.stdout())?;
    let mut source = StdSource::new(rt.stdin());
    let mut sink = StdSink::new(&mut out);
    let status = if is_live(words) {
        run_live(
            threads,
            rt.alloc(),
            words,
            &mut source,
            &mut sink,
            handlers,
            &OpenGate,
        )
    } else {
        run(rt.alloc(), words, &mut source, &mut sink, handlers)
    };
    match out.flush() {
        Ok(()) => Ok(status),
        Err(_) => Ok(Status::SinkFault),
    }
}

/// Whether the first word is that of lanes on threads.
fn is_live(words: &Vec<String>) -> bool {
    words.first().is_some_and(|word| word.as_str() == "live")
}

/// The arguments after the program's name.
fn words(rt: &HostRuntime) -> io::Result<Vec<String>> {
    let words = env::args(rt)?.skip(1).collect(rt.alloc())?;
    Ok(words)
}
