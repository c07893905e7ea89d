//! The head of Put, Putv and Am with Note.
//!
//! ```text
//! size  field   rule                                        reason
//! 1     cmpl    below 64                                    Field
//! ```

ghost use Rattle.std.specs.Prelude.{◌≡◌, ◌≤◌, ◌+◌, ◌++◌, length};
ghost use Rattle.lapi_base.specs.Packet.Heads.{note_form};
ghost use Rattle.lapi_packet.specs.Reader.{Reads};
ghost use Rattle.lapi_base.specs.Packet.PacketBytes as written;

use crate::fault::{Fault, refused};
use crate::number::{read_one, write_one};
use lapi_base::{FRAME_ROOM, Frame, Head, NoteOp, Reason};

#[tactic(auto, using(lapi_base::proofs::FormLaws::read_bind), unfolding(lapi_base::specs::Packet::Heads::note_form))]
pub(crate) fn read(op: NoteOp, bytes: &[u8]) -> Result<(Head, &[u8]), Fault>
    ensures { Reads (note_form op) bytes.now result }
{
    let (cmpl, rest) = read_one(bytes)?;
    if cmpl >= 64 {
        return Err(refused(bytes, Reason::Field));
    }
    Ok((Head::Note { op, cmpl }, rest))
}

pub(crate) fn write(cmpl: u32, out: &mut Frame)
    requires { length out.old + 1 ≤ FRAME_ROOM }
    ensures { out.new ≡ out.old ++ written.one cmpl }
{
    write_one(cmpl, out);
}
