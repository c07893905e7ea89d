ghost use Rattle.std.specs.Prelude.{◌≡◌, [], ◌∷◌, ◌++◌, IfOk, OnOk, OnErr};

use crate::address::Addr;
use crate::bytes::Bytes;
use crate::memory::Memory;
use crate::vector::Vector;
use std::alloc::Global;
use std::marker::Model;

/// What a read-modify-write makes of the old word.
#[derive(Clone, Copy, Debug, Eq, PartialEq)]
pub enum RmwOp {
    /// FETCH_AND_ADD, modulo 2^32.
    Add,
    /// FETCH_AND_OR.
    Or,
    /// SWAP.
    Swap,
    /// COMPARE_AND_SWAP: stores `in2` where the old word is `in1`.
    Cas,
}

impl RmwOp {
    ghost use Rattle.std.specs.Prelude.{◌≡◌, ◌≤◌, length};
    ghost use Rattle.lapi_base.specs.Input.Rows.{operation_word};

    /// Its word in a text.
    pub fn word(self) -> &'static str
        ensures name { result.now ≡ operation_word self }
        ensures short { length result.now ≤ 4 }
    {
        match self {
            RmwOp::Add => "add",
            RmwOp::Or => "or",
            RmwOp::Swap => "swap",
            RmwOp::Cas => "cas",
        }
    }
}

/// One call of a task. `tgt`, `org` and `cmpl` name the target, origin and completion counter.
#[derive(Debug, Drop)]
pub enum Statement {
    /// Writes bytes into the task's own memory.
    Store {
        at: u32,
        bytes: Bytes,
    },
    Put {
        target: u32,
        to: Addr,
        from: u32,
        len: u32,
        tgt: Option<u32>,
        org: Option<u32>,
        cmpl: Option<u32>,
    },
    Get {
        target: u32,
        from: Addr,
        to: u32,
        len: u32,
        tgt: Option<u32>,
        org: Option<u32>,
    },
    Putv {
        target: u32,
        to: Vector,
        from: Vector,
        tgt: Option<u32>,
        org: Option<u32>,
        cmpl: Option<u32>,
    },
    Getv {
        target: u32,
        from: Vector,
        to: Vector,
        tgt: Option<u32>,
        org: Option<u32>,
    },
    /// `in2` is 0 unless `op` is `Cas`; the old word goes to `prev` at the origin.
    Rmw {
        target: u32,
        op: RmwOp,
        at: Addr,
        in1: u32,
        in2: u32,
        prev: u32,
        org: Option<u32>,
    },
    /// Amsend, with the number of a header handler and a user header.
    Am {
        target: u32,
        handler: u32,
        header: Bytes,
        from: u32,
        len: u32,
        tgt: Option<u32>,
        org: Option<u32>,
        cmpl: Option<u32>,
    },
    /// Waitcntr.
    Wait {
        counter: u32,
        value: u32,
    },
    /// Setcntr.
    Set {
        counter: u32,
        value: u32,
    },
    /// Getcntr.
    Read {
        counter: u32,
    },
    Fence,
    Gfence,
    /// Address_init: gives `at` to the table of this round.
    Addr {
        at: u32,
    },
}

/// The statements of one task, in order.
#[derive(Debug, Drop)]
pub struct Statements {
    items: Vec<Statement>,
}

impl Model for Statements {
    ghost use Rattle.std.specs.Prelude.{List};
    ghost use Rattle.lapi_base.specs.declared.statement.Statement.{Statement};

    ghost Value = { List Statement };

    ghost view = { λ list. list.items.items };
}

impl Statements {
    /// The empty list, which takes no memory yet.
    pub fn new(alloc: Global) -> Statements
        ensures { result ≡ [] }
    {
        Statements {
            items: Vec::new(alloc),
        }
    }

    /// Appends a statement.
    pub fn push(&mut self, item: Statement) -> Result<(), Memory>
        ensures ok { OnOk result (self.new ≡ self.old ++ item ∷ []) }
        ensures err { OnErr result (self.new ≡ self.old) }
    {
        self.items.push(item)?;
        Ok(())
    }

    /// A copy of the list.
    pub fn copy(&self, alloc: Global) -> Result<Statements, Memory>
        ensures { IfOk result (λ copy. copy ≡ self.now) }
    {
        let mut copy = Statements::new(alloc);
        for statement in self.as_slice() {
            let statement = statement.copy(alloc)?;
            copy.push(statement)?;
        }
        Ok(copy)
    }

    pub fn as_slice(&self) -> &[Statement]
        ensures { result.now ≡ self.now }
    {
        self.items.as_slice()
    }
}

/// The statements of each task.
#[derive(Debug, Drop)]
pub struct StatementLists {
    items: Vec<Statements>,
}

impl Model for StatementLists {
    ghost use Rattle.std.specs.Prelude.{List};
    ghost use Rattle.lapi_base.specs.declared.statement.Statement.{Statement};

    ghost Value = { List (List Statement) };

    ghost view = { λ list. list.items.items };
}

impl StatementLists {
    /// The empty list, which takes no memory yet.
    pub fn new(alloc: Global) -> StatementLists
        ensures { result ≡ [] }
    {
        StatementLists {
            items: Vec::new(alloc),
        }
    }

    /// Appends a task's statements.
    pub fn push(&mut self, item: Statements) -> Result<(), Memory>
        ensures ok { OnOk result (self.new ≡ self.old ++ item ∷ []) }
        ensures err { OnErr result (self.new ≡ self.old) }
    {
        self.items.push(item)?;
        Ok(())
    }

    pub fn as_slice(&self) -> &[Statements]
        ensures { result.now ≡ self.now }
    {
        self.items.as_slice()
    }
}
