//! The head of Am with Go.
//!
//! ```text
//! size  field   rule                                        reason
//! 1     handler at most 15                                  Field
//! 1     tgt     below 64, or ff for none                    Field
//! 1     cmpl    below 64, or ff for none                    Field
//! 1     count   a multiple of 4, at most 64                 Field
//!       header  count bytes, any
//! ```

ghost use Rattle.std.specs.Prelude.{◌≡◌, ◌≤◌, ◌+◌, ◌++◌, length, IfOk};
ghost use Rattle.lapi_base.specs.Packet.Format.{bytes_form};
ghost use Rattle.lapi_base.specs.Packet.Heads.{am_form, header_count_form};
ghost use Rattle.lapi_packet.specs.Reader.{Reads};
ghost use Rattle.lapi_base.specs.Packet.PacketBytes as written;

use crate::counter;
use crate::fault::{Fault, cut_short, refused};
use crate::number::{read_one, write_one};
use lapi_base::{FRAME_ROOM, Frame, Head, Reason, UserHeader};

const LAST_HANDLER: u32 = 15;

const LONGEST_HEADER: u32 = 64;

#[tactic(auto, using(lapi_base::proofs::FormLaws::read_bind), unfolding(lapi_base::specs::Packet::Heads::am_form))]
pub(crate) fn read(bytes: &[u8]) -> Result<(Head, &[u8]), Fault>
    ensures { Reads am_form bytes.now result }
{
    let (handler, rest) = read_one(bytes)?;
    if handler > LAST_HANDLER {
        return Err(refused(bytes, Reason::Field));
    }
    let (tgt, rest) = counter::read(rest)?;
    let (cmpl, rest) = counter::read(rest)?;
    let (count, rest) = read_count(rest)?;
    let (header, rest) = read_header(count, rest)?;
    let head = Head::Am {
        handler,
        tgt,
        cmpl,
        header,
    };
    Ok((head, rest))
}

pub(crate) fn write(
    handler: u32,
    tgt: Option<u32>,
    cmpl: Option<u32>,
    header: &UserHeader,
    out: &mut Frame,
)
    requires { length out.old + 68 ≤ FRAME_ROOM }
    ensures bytes { out.new ≡ out.old ++ written.head (Head.Am handler tgt cmpl header.now) }
    ensures room { length out.new ≤ length out.old + 68 }
{
    write_one(handler, out);
    counter::write(tgt, out);
    counter::write(cmpl, out);
    let header = header.as_slice();
    write_one(header.len() as u32, out);
    out.extend_from_slice(header);
}

#[tactic(auto, unfolding(lapi_base::specs::Packet::Heads::header_count_form))]
fn read_count(bytes: &[u8]) -> Result<(u32, &[u8]), Fault>
    ensures read { Reads header_count_form bytes.now result }
    ensures most { IfOk result (λ x. x.0 ≤ 64) }
{
    let (count, rest) = read_one(bytes)?;
    if count % 4 != 0 || count > LONGEST_HEADER {
        return Err(refused(bytes, Reason::Field));
    }
    Ok((count, rest))
}

#[tactic(auto, using(lapi_base::proofs::FormLists::read_bytes))]
fn read_header(count: u32, bytes: &[u8]) -> Result<(UserHeader, &[u8]), Fault>
    requires { count ≤ 64 }
    ensures { Reads (bytes_form count) bytes.now result }
{
    if bytes.len() < count as usize {
        return Err(cut_short());
    }
    let (front, rest) = bytes.split_at(count as usize);
    let mut header = UserHeader::new();
    header.extend_from_slice(front);
    Ok((header, rest))
}
