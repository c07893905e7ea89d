//! The head of Get with Go.
//!
//! ```text
//! size  field   rule                                        reason
//! 4     asked   at most 16,384, in layout 2 65,536          Field
//! 4     source  source + asked at most 65,536               Field
//! 4     dest    dest + asked at most 65,536                 Field
//! 1     tgt     below 64, or ff for none                    Field
//! 1     org     below 64, or ff for none                    Field
//! ```

ghost use Rattle.std.specs.Prelude.{◌≡◌, ◌≤◌, ◌+◌, ◌++◌, length};
ghost use Rattle.lapi_base.specs.Packet.Heads.{get_go_form};
ghost use Rattle.lapi_base.specs.Packet.Layout.{layout_of};
ghost use Rattle.lapi_packet.specs.Reader.{Reads};
ghost use Rattle.lapi_base.specs.Packet.PacketBytes as written;

use crate::counter;
use crate::fault::{Fault, refused};
use crate::number::{read_four, write_four};
use crate::range::read_range;
use lapi_base::{FRAME_ROOM, Frame, Head, Reason, longest_in};

#[tactic(auto, using(lapi_base::proofs::FormLaws::read_bind), unfolding(lapi_base::specs::Packet::Heads::get_go_form))]
pub(crate) fn read(layout: u32, bytes: &[u8]) -> Result<(Head, &[u8]), Fault>
    ensures { Reads (get_go_form (layout_of layout)) bytes.now result }
{
    let (asked, rest) = read_four(bytes)?;
    if asked > longest_in(layout) {
        return Err(refused(bytes, Reason::Field));
    }
    let (source, rest) = read_range(asked, rest)?;
    let (dest, rest) = read_range(asked, rest)?;
    let (tgt, rest) = counter::read(rest)?;
    let (org, rest) = counter::read(rest)?;
    let head = Head::GetGo {
        asked,
        source,
        dest,
        tgt,
        org,
    };
    Ok((head, rest))
}

pub(crate) fn write(
    asked: u32,
    source: u32,
    dest: u32,
    tgt: Option<u32>,
    org: Option<u32>,
    out: &mut Frame,
)
    requires { length out.old + 14 ≤ FRAME_ROOM }
    ensures bytes { out.new ≡ out.old ++ written.head (Head.GetGo asked source dest tgt org) }
    ensures room { length out.new ≤ length out.old + 14 }
{
    write_four(asked, out);
    write_four(source, out);
    write_four(dest, out);
    counter::write(tgt, out);
    counter::write(org, out);
}
