use anyhow::{Result, ensure};
use std::alloc::{AllocError, Global};

/// The lines of an input, of which the last may lack its line feed, and the bytes behind them.
#[derive(Drop)]
pub struct Input {
    lines: Vec<String>,
    is_ended: bool,
    bytes: Vec<u8>,
}

impl Input {
    pub fn new(alloc: Global) -> Input {
        Input {
            lines: Vec::new(alloc),
            is_ended: true,
            bytes: Vec::new(alloc),
        }
    }

    /// The same once more.
    pub fn copy(&self) -> Result<Input, AllocError> {
        Ok(Input {
            lines: self.lines.clone()?,
            is_ended: self.is_ended,
            bytes: self.bytes.clone()?,
        })
    }

    pub fn push(&mut self, line: String) -> Result<(), AllocError> {
        self.lines.push(line)?;
        Ok(())
    }

    /// Puts a line in place of line `number`, counted from 1, or behind the last.
    pub fn change(&mut self, number: usize, line: String) -> Result<()> {
        let count = self.lines.len();
        ensure!(number > 0 && number - 1 <= count, "no line {number}");
        if number - 1 < count {
            self.lines[number - 1] = line;
        } else {
            self.lines.push(line)?;
        }
        Ok(())
    }

    /// Puts a line before line `number`, counted from 1.
    pub fn insert(&mut self, number: usize, line: String) -> Result<()> {
        ensure!(
            number > 0 && number - 1 <= self.lines.len(),
            "no line {number}"
        );
        self.lines.insert(number - 1, line)?;
        Ok(())
    }

    /// Keeps the first lines alone.
    pub fn keep(&mut self, count: usize) {
        self.lines.truncate(count);
    }

    /// Takes the line feed from the last line.
    pub fn leave_unended(&mut self) {
        self.is_ended = false;
    }

    pub fn push_bytes(&mut self, bytes: &[u8]) -> Result<(), AllocError> {
        self.bytes.extend_from_slice(bytes)
    }

    pub fn bytes(&self, alloc: Global) -> Result<Vec<u8>, AllocError> {
        let mut bytes = Vec::new(alloc);
        for line in &self.lines {
            bytes.extend_from_slice(line.as_bytes())?;
            bytes.push(b'\n')?;
        }
        if !self.is_ended {
            let _line_feed = bytes.pop();
        }
        bytes.extend_from_slice(self.bytes.as_slice())?;
        Ok(bytes)
    }
}
