use crate::directive::Directive;
use crate::row::Row;
use anyhow::{Context, Result, ensure};
use std::alloc::Global;

/// The rows that have ended, and the one that is being read.
#[derive(Drop)]
pub struct Table {
    rows: Vec<Row>,
    open: Option<Row>,
    /// Whether the open row is only what its cases have in common.
    has_cases: bool,
}

impl Table {
    pub fn new(alloc: Global) -> Table {
        Table {
            rows: Vec::new(alloc),
            open: None,
            has_cases: false,
        }
    }

    pub fn rows(&self) -> &[Row] {
        self.rows.as_slice()
    }

    /// Takes one more line of the table; true where a row ends with it.
    pub fn take(&mut self, alloc: Global, line: &str) -> Result<bool> {
        if line.is_empty() || line.starts_with('#') {
            return Ok(false);
        }
        match Directive::parse(line)? {
            Directive::Row(name) => self.begin(alloc, name, false),
            Directive::Rows(name) => self.begin(alloc, name, true),
            Directive::Case(case) => {
                let common = self.open.as_ref().context("not in rows")?;
                self.rows.push(common.of_case(alloc, &case)?)?;
                Ok(true)
            }
            Directive::From(name) => self.copy_input(name),
            Directive::End => self.end(),
            directive => {
                let row = self.open.as_mut().context("not in a row")?;
                row.take(alloc, directive)?;
                Ok(false)
            }
        }
    }

    fn begin(&mut self, alloc: Global, name: &str, has_cases: bool) -> Result<bool> {
        ensure!(self.open.is_none(), "a row in a row");
        self.open = Some(Row::new(alloc, name)?);
        self.has_cases = has_cases;
        Ok(false)
    }

    fn end(&mut self) -> Result<bool> {
        let row = self.open.take().context("no row to end")?;
        if !self.has_cases {
            self.rows.push(row)?;
        }
        Ok(!self.has_cases)
    }

    /// Gives the open row the input of an earlier one.
    fn copy_input(&mut self, name: &str) -> Result<bool> {
        let earlier = self
            .rows
            .iter()
            .find(|row| row.name() == name)
            .context("no such row")?;
        let row = self.open.as_mut().context("not in a row")?;
        row.set_input(earlier.input().copy()?);
        Ok(false)
    }
}
