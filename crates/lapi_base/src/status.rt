ghost use Rattle.std.specs.Prelude.{◌≡◌};

use crate::memory::Memory;
use std::alloc::AllocError;

/// How a command ends; its number is the exit status of the program.
#[derive(Clone, Copy, Debug, Eq, PartialEq)]
pub enum Status {
    Ok,
    /// The words are no command.
    Usage,
    /// The input isn't in the grammar.
    Syntax,
    /// A quantity of the input passes its limit.
    Limit,
    /// The input couldn't be read.
    SourceFault,
    /// The text couldn't be written.
    SinkFault,
    Memory,
    /// The lines of one worker stand in two lanes.
    LaneClash,
    /// A journal isn't one of the atomic message machine.
    Broken,
}

/// Why a text wasn't written whole.
#[derive(Clone, Copy, Debug, Eq, PartialEq)]
pub enum WriteFault {
    /// The sink refused.
    Failed,
    Memory,
}

impl From<AllocError> for WriteFault {
    ghost use Rattle.lapi_base.specs.declared.status.WriteFault.TheVariants as WriteFault;

    ghost from_gives = { λ _ fault. fault ≡ WriteFault.Memory };

    fn from(_error: AllocError) -> WriteFault {
        WriteFault::Memory
    }
}

impl From<Memory> for WriteFault {
    ghost use Rattle.lapi_base.specs.declared.status.WriteFault.TheVariants as WriteFault;

    ghost from_gives = { λ _ fault. fault ≡ WriteFault.Memory };

    fn from(_error: Memory) -> WriteFault {
        WriteFault::Memory
    }
}
