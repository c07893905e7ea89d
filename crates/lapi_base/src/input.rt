ghost use Rattle.std.specs.Prelude.{◌≡◌};

use crate::memory::Memory;
use crate::schedule::Schedule;
use crate::script::Script;
use std::alloc::AllocError;

/// What an input text says.
#[derive(Debug, Drop)]
pub struct Input {
    pub script: Script,
    pub schedule: Schedule,
}

/// The quantity that passes its limit.
#[derive(Clone, Copy, Debug, Eq, PartialEq)]
pub enum Which {
    Input,
    Tasks,
    Memory,
    Counters,
    Workers,
    Statements,
    Lines,
    Lane,
    Pieces,
    Bytes,
    /// The events of an audit's journal.
    Events,
    /// The tasks of an array's grid.
    Grid,
    /// The rows and columns of a block of an array.
    Block,
    /// The operations on an array.
    Ops,
    /// The words of an array's patch.
    Patch,
    /// The rows and columns of an array that a patch is of.
    Range,
}

/// What is wrong with a line.
#[derive(Clone, Copy, Debug, Eq, PartialEq)]
pub enum LineError {
    /// It isn't of a form that may stand there.
    Syntax,
    /// It has its form, and a quantity passes its limit there.
    Limit(Which),
}

/// Why a text is no input. Lines are counted from 1; line 0 stands for the whole text.
#[derive(Clone, Copy, Debug, Eq, PartialEq)]
pub enum ReadFault {
    Syntax { line: u32 },
    Limit { which: Which, line: u32 },
    Memory,
}

impl From<AllocError> for ReadFault {
    ghost use Rattle.lapi_base.specs.declared.input.ReadFault.TheVariants as ReadFault;

    ghost from_gives = { λ _ fault. fault ≡ ReadFault.Memory };

    fn from(_error: AllocError) -> ReadFault {
        ReadFault::Memory
    }
}

impl From<Memory> for ReadFault {
    ghost use Rattle.lapi_base.specs.declared.input.ReadFault.TheVariants as ReadFault;

    ghost from_gives = { λ _ fault. fault ≡ ReadFault.Memory };

    fn from(_error: Memory) -> ReadFault {
        ReadFault::Memory
    }
}
