ghost use Rattle.std.specs.Prelude.{◌≤◌};
ghost use Rattle.lapi_base.specs.declared.layout.TheConstants.{LONGEST_INPUT};

use crate::directive::{Case, Directive};
use crate::input::Input;
use crate::ran::Ran;
use crate::repeats::{spelled_out, written_out};
use anyhow::{Context, Result, bail, ensure};
use lapi_base::LONGEST_INPUT;
use lapi_handlers::Handlers;
use lapi_io::{MemSink, MemSource};
use lapi_live::OpenGate;
use lapi_tool::{run, run_live};
use std::alloc::Global;
use std::str;
use std::sync::Wait;
use std::thread::Threads;

/// The words and the input of a command, how its reads and writes go, and what is to come of it.
#[derive(Drop)]
pub struct Row {
    name: String,
    words: Vec<String>,
    input: Input,
    read_step: usize,
    write_step: usize,
    failing_reads: Vec<u64>,
    failing_writes: Vec<u64>,
    room: usize,
    status: u8,
    text: Vec<u8>,
    ghost reads_move: { 1 ≤ read_step },
    ghost writes_move: { 1 ≤ write_step },
    ghost few: { room ≤ LONGEST_INPUT },
}

impl Row {
    pub fn new(alloc: Global, name: &str) -> Result<Row> {
        Ok(Row {
            name: String::from_str(alloc, name)?,
            words: Vec::new(alloc),
            input: Input::new(alloc),
            read_step: 4096,
            write_step: 4096,
            failing_reads: Vec::new(alloc),
            failing_writes: Vec::new(alloc),
            room: 65_536,
            status: 0,
            text: Vec::new(alloc),
        })
    }

    pub fn name(&self) -> &str {
        self.name.as_str()
    }

    pub fn input(&self) -> &Input {
        &self.input
    }

    /// The status that is wanted.
    pub fn status(&self) -> u8 {
        self.status
    }

    /// The text that is wanted.
    pub fn text(&self) -> &str {
        str::from_utf8(self.text.as_slice()).unwrap_or("bytes that are no text")
    }

    pub fn set_input(&mut self, input: Input) {
        self.input = input;
    }

    /// The row of a case: these words over the changed input.
    pub fn of_case(&self, alloc: Global, case: &Case) -> Result<Row> {
        let name = format!(in alloc; "{}: {}", self.name, case.change)?;
        let mut row = Row::new(alloc, name.as_str())?;
        row.words = self.words.clone()?;
        row.input = self.input.copy()?;
        row.take(alloc, Directive::Line(case.number, case.line))?;
        row.take(alloc, Directive::Status(case.status))?;
        row.take(alloc, Directive::Wanted(case.answer))?;
        Ok(row)
    }

    /// Takes a directive that speaks of no other row.
    pub fn take(&mut self, alloc: Global, directive: Directive) -> Result<()> {
        match directive {
            Directive::Word(text) => self.words.push(written_out(alloc, text)?)?,
            Directive::Status(status) => self.status = status,
            Directive::Wanted(text) => {
                self.want(alloc, text)?;
                self.text.push(b'\n')?;
            }
            Directive::Cut(text) => self.want(alloc, text)?,
            Directive::Held(digits) => {
                let bytes = spelled_out(alloc, digits)?;
                self.text.extend_from_slice(bytes.as_slice())?;
            }
            Directive::Fronts(length, entry) => self.cut(alloc, length, entry)?,
            Directive::FailingRead(n) => self.failing_reads.push(n)?,
            Directive::FailingWrite(n) => self.failing_writes.push(n)?,
            Directive::ReadStep(n) => {
                ensure!(n > 0, "a step of no bytes");
                self.read_step = n;
            }
            Directive::WriteStep(n) => {
                ensure!(n > 0, "a step of no bytes");
                self.write_step = n;
            }
            Directive::Room(n) => {
                ensure!(n <= LONGEST_INPUT, "too much room");
                self.room = n;
            }
            _ => return self.take_input(alloc, directive),
        }
        Ok(())
    }

    fn want(&mut self, alloc: Global, text: &str) -> Result<()> {
        let text = written_out(alloc, text)?;
        self.text.extend_from_slice(text.as_bytes())?;
        Ok(())
    }

    /// Cuts an entry of so many bytes after each number of bytes below, each time to be refused as short.
    fn cut(&mut self, alloc: Global, length: usize, entry: &str) -> Result<()> {
        for n in 0..length {
            let cut = format!(in alloc; "0 cut {entry} {n}")?;
            let told = format!(in alloc; "{} : bad {n} 1\n", cut.as_str())?;
            self.text.extend_from_slice(told.as_bytes())?;
            self.input.push(cut)?;
        }
        Ok(())
    }

    /// Takes a directive on the input.
    fn take_input(&mut self, alloc: Global, directive: Directive) -> Result<()> {
        match directive {
            Directive::Given(text) => self.input.push(written_out(alloc, text)?)?,
            Directive::Bytes(digits) => {
                let bytes = spelled_out(alloc, digits)?;
                self.input.push_bytes(bytes.as_slice())?;
            }
            Directive::Times(count, text) => {
                for _ in 0..count {
                    self.input.push(written_out(alloc, text)?)?;
                }
            }
            Directive::Line(number, text) => self.input.change(number, written_out(alloc, text)?)?,
            Directive::Before(number, text) => {
                self.input.insert(number, written_out(alloc, text)?)?;
            }
            Directive::First(count) => self.input.keep(count),
            Directive::Unended => self.input.leave_unended(),
            _ => bail!("this can't stand in a row"),
        }
        Ok(())
    }

    /// Runs the command over its input.
    pub fn run<R: Threads + Wait + Sync>(
        &self,
        rt: &R,
        alloc: Global,
        handlers: &Handlers,
    ) -> Result<Ran> {
        let input = self.input.bytes(alloc)?;
        let failing_reads = self.failing_reads.clone()?;
        let failing_writes = self.failing_writes.clone()?;
        let mut source = MemSource::new(input, self.read_step, failing_reads);
        let mut sink = MemSink::new(alloc, self.room, self.write_step, failing_writes)
            .ok()
            .context("no memory for a sink")?;
        let words = &self.words;
        let status = if self.is_live() {
            run_live(
                rt,
                alloc,
                words,
                &mut source,
                &mut sink,
                handlers,
                &OpenGate,
            )
        } else {
            run(alloc, words, &mut source, &mut sink, handlers)
        };
        Ok(Ran::new(status, Vec::from_slice(alloc, sink.held())?))
    }

    /// Whether the first word is that of lanes on threads.
    fn is_live(&self) -> bool {
        self.words
            .first()
            .is_some_and(|word| word.as_str() == "live")
    }

    /// Whether this is what was wanted.
    pub fn accepts(&self, ran: &Ran) -> bool {
        self.status == ran.status() && self.text.as_slice() == ran.held()
    }
}
