//! Runs the rows of a table and tells which give another status or text than the table says.
//!
//! The table comes on standard input. A row is the lines from `row NAME` to `end`; between rows stand lines that begin
//! with `#`, or nothing. `directive.rt` says what may stand in a row.
#![tactic(auto)]

mod directive;
mod input;
mod ran;
mod repeats;
mod row;
mod table;

use anyhow::Context;
use lapi_base::{CompletionRule, HeaderIn};
use lapi_handlers::{
    CompletionFn, Handlers, HeaderFn, NOWHERE, PER_ORIGIN, WORD, WORD_AND_CHOICE, nothing, nowhere,
    per_origin, reversed, same, sum, sum_back, word, word_and_choice,
};
use ran::Ran;
use row::Row;
use std::alloc::Global;
use std::io::{self, BufRead, BufReader, Input, Print};
use std::sync::Wait;
use std::thread::Threads;
use table::Table;

fn main(rt: HostRuntime) -> anyhow::Result<()> {
    let alloc = rt.alloc();
    let mut headers = Vec::new(alloc);
    headers.push(HeaderFn::new(WORD, Box::new(alloc, |given: &HeaderIn| word(given))?))?;
    headers.push(HeaderFn::new(
        WORD_AND_CHOICE,
        Box::new(alloc, |given: &HeaderIn| word_and_choice(given))?,
    ))?;
    headers.push(HeaderFn::new(
        PER_ORIGIN,
        Box::new(alloc, |given: &HeaderIn| per_origin(given))?,
    ))?;
    headers.push(HeaderFn::new(NOWHERE, Box::new(alloc, |given: &HeaderIn| nowhere(given))?))?;
    let mut completions = Vec::new(alloc);
    completions.push(CompletionFn::new(
        CompletionRule::Nothing,
        Box::new(alloc, |user: u32, buffer: &[u8]| nothing(user, buffer))?,
    ))?;
    completions.push(CompletionFn::new(
        CompletionRule::Sum,
        Box::new(alloc, |user: u32, buffer: &[u8]| sum(user, buffer))?,
    ))?;
    completions.push(CompletionFn::new(
        CompletionRule::Same,
        Box::new(alloc, |user: u32, buffer: &[u8]| same(user, buffer))?,
    ))?;
    completions.push(CompletionFn::new(
        CompletionRule::Reversed,
        Box::new(alloc, |user: u32, buffer: &[u8]| reversed(user, buffer))?,
    ))?;
    completions.push(CompletionFn::new(
        CompletionRule::Answer,
        Box::new(alloc, |user: u32, buffer: &[u8]| sum_back(user, buffer))?,
    ))?;
    let handlers = Handlers::new(headers, completions);
    run_table(&rt, alloc, &handlers)
}

/// Runs the rows of the table on standard input with these handlers.
fn run_table<R: Input + Print + Threads + Wait + Sync>(
    rt: &R,
    alloc: Global,
    handlers: &Handlers,
) -> anyhow::Result<()> {
    let mut table = Table::new(alloc);
    let mut differ = 0u64;
    for (i, line) in BufReader::new(alloc, rt.reader())?.lines(alloc).enumerate() {
        let line = line?;
        let ended = table
            .take(alloc, line.as_str())
            .context(format_args!("line {} of the table", i + 1))?;
        if ended && !has_passed(rt, alloc, handlers, &table)? {
            differ = differ.saturating_add(1);
        }
    }
    println!(rt; "{} rows, {differ} differ", table.rows().len())?;
    Ok(())
}

/// Runs the last row and prints what came of it.
fn has_passed<R: Print + Threads + Wait + Sync>(
    rt: &R,
    alloc: Global,
    handlers: &Handlers,
    table: &Table,
) -> anyhow::Result<bool> {
    let row = table.rows().last().context("no row")?;
    let ran = row.run(rt, alloc, handlers)?;
    let passed = row.accepts(&ran);
    if passed {
        println!(rt; "row {} ok", row.name())?;
    } else {
        print_difference(rt, row, &ran)?;
    }
    Ok(passed)
}

/// Prints the statuses, and the first line that is another one.
fn print_difference(rt: &impl Print, row: &Row, ran: &Ran) -> io::Result<()> {
    println!(rt; "row {} differs", row.name())?;
    println!(rt; "status {}, wanted {}", ran.status(), row.status())?;
    let mut found = ran.text().lines();
    for (i, wanted) in row.text().lines().enumerate() {
        let line = found.next().unwrap_or("(no line)");
        if line != wanted {
            println!(rt; "line {}: {line}", i + 1)?;
            return println!(rt; "wanted: {wanted}");
        }
    }
    match found.next() {
        Some(line) => println!(rt; "one more line: {line}"),
        None => println!(rt; "{} bytes, wanted {}", ran.held().len(), row.text().len()),
    }
}
