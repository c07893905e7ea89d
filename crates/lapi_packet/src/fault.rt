ghost use Rattle.std.specs.Prelude.{◌≡◌, length};

use lapi_base::Reason;

/// The first fault, by the number of bytes from its field on.
#[derive(Clone, Copy)]
pub(crate) struct Fault {
    pub(crate) left: usize,
    pub(crate) reason: Reason,
}

/// The fault of a field that these bytes begin with.
pub(crate) fn refused(bytes: &[u8], reason: Reason) -> Fault
    ensures { result ≡ record { left = length bytes.now; reason = reason } }
{
    Fault {
        left: bytes.len(),
        reason,
    }
}

/// The fault of bytes that end within a field.
pub(crate) fn cut_short() -> Fault
    ensures { result ≡ record { left = 0; reason = Reason.Short } }
{
    Fault {
        left: 0,
        reason: Reason::Short,
    }
}
