ghost use Rattle.std.specs.Prelude.{◌≡◌};
ghost use Rattle.lapi_script.specs.declared.fault.LineFault.TheVariants as LineFault;
ghost use Rattle.lapi_base.specs.declared.input.LineError.TheVariants as LineError;

use lapi_base::{LineError, Memory, Which};
use std::alloc::AllocError;

/// Why a line isn't taken.
#[derive(Clone, Copy, Debug, Eq, PartialEq)]
pub enum LineFault {
    Memory,
    Wrong(LineError),
}

impl From<AllocError> for LineFault {
    ghost use Rattle.lapi_script.specs.declared.fault.LineFault.TheVariants as LineFault;

    ghost from_gives = { λ _ fault. fault ≡ LineFault.Memory };

    fn from(_error: AllocError) -> LineFault {
        LineFault::Memory
    }
}

impl From<Memory> for LineFault {
    ghost use Rattle.lapi_script.specs.declared.fault.LineFault.TheVariants as LineFault;

    ghost from_gives = { λ _ fault. fault ≡ LineFault.Memory };

    fn from(_error: Memory) -> LineFault {
        LineFault::Memory
    }
}

/// The line is of no form that may stand there.
pub fn syntax() -> LineFault
    ensures { result ≡ LineFault.Wrong LineError.Syntax }
{
    LineFault::Wrong(LineError::Syntax)
}

/// The line has its form, and passes this limit.
pub fn limit(which: Which) -> LineFault
    ensures { result ≡ LineFault.Wrong (LineError.Limit which) }
{
    LineFault::Wrong(LineError::Limit(which))
}
