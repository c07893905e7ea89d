ghost use Rattle.std.specs.Prelude.{◌↔◌, IsTrue};
ghost use Rattle.lapi_base.specs.Packet.Spelling.{HasSpelling};

use crate::decoding::decode;
use crate::encoding::write;
use lapi_base::{Frame, Packet};

/// Whether the packet has a spelling: whether its bytes are read as this packet again.
pub fn valid(p: &Packet) -> bool
    ensures { IsTrue result ↔ HasSpelling p.now }
{
    let mut bytes = Frame::new();
    write(p, &mut bytes);
    match decode(bytes.as_slice()) {
        Ok(packet) => packet == *p,
        Err(_) => false,
    }
}
