//! Plans: a grid of tasks, the size of their blocks, and operations on patches of the array.
ghost use Rattle.std.specs.Prelude.{◌≡◌, [], ◌∷◌, ◌++◌, OnOk, OnErr};
ghost use Rattle.lapi_blocks.specs.Plans.{patch_of};

use crate::patch::Patch;
use lapi_base::{Bytes, Memory};
use std::alloc::Global;
use std::marker::Model;

/// One operation of a task on a patch of the array: `rows` by `cols` words from row `row` and column `col` on.
#[derive(Debug, Drop)]
pub enum Op {
    /// Writes the patch: four bytes for each word, row after row.
    Set {
        task: u32,
        row: u32,
        col: u32,
        rows: u32,
        cols: u32,
        values: Bytes,
    },
    /// Reads it.
    Get {
        task: u32,
        row: u32,
        col: u32,
        rows: u32,
        cols: u32,
    },
}

impl Op {
    /// The patch that it is on, with the task whose operation it is.
    pub fn patch(&self) -> Patch
        ensures { result ≡ patch_of self.now }
    {
        match self {
            Op::Set {
                task,
                row,
                col,
                rows,
                cols,
                ..
            }
            | Op::Get {
                task,
                row,
                col,
                rows,
                cols,
            } => Patch {
                task: *task,
                row: *row,
                col: *col,
                rows: *rows,
                cols: *cols,
            },
        }
    }
}

/// The operations of a plan, in order.
#[derive(Debug, Drop)]
pub struct Ops {
    items: Vec<Op>,
}

impl Model for Ops {
    ghost use Rattle.std.specs.Prelude.{List};
    ghost use Rattle.lapi_blocks.specs.declared.plan.Op.{Op};

    ghost Value = { List Op };

    ghost view = { λ list. list.items.items };
}

impl Ops {
    /// The empty list, which takes no memory yet.
    pub fn new(alloc: Global) -> Ops
        ensures { result ≡ [] }
    {
        Ops {
            items: Vec::new(alloc),
        }
    }

    /// Appends an operation.
    pub fn push(&mut self, item: Op) -> Result<(), Memory>
        ensures ok { OnOk result (self.new ≡ self.old ++ item ∷ []) }
        ensures err { OnErr result (self.new ≡ self.old) }
    {
        self.items.push(item)?;
        Ok(())
    }

    pub fn as_slice(&self) -> &[Op]
        ensures { result.now ≡ self.now }
    {
        self.items.as_slice()
    }
}

/// An array of 32-bit words over a grid of `p` by `q` tasks, of which each has a block of `height` by `width` words,
/// and what is done with it. Task `i * q + j` has row `i` and column `j` of the grid.
#[derive(Debug, Drop)]
pub struct Plan {
    /// The rows of the grid.
    pub p: u32,
    /// Its columns.
    pub q: u32,
    /// The rows of a block.
    pub height: u32,
    /// Its columns, in words.
    pub width: u32,
    /// What is done, in order; a global fence follows each operation.
    pub ops: Ops,
}
