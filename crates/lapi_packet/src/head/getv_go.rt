//! The head of Getv with Go.
//!
//! ```text
//! size  field   rule                                        reason
//! 1     tgt     below 64, or ff for none                    Field
//! 1     org     below 64, or ff for none                    Field
//! 1     count   1 to 16                                     Field
//! 8     source  the lengths so far at most 16,384,          Field
//!               in layout 2 65,536
//! 8     dest    each as long as the span of source          Field
//! ```

ghost use Rattle.std.specs.Prelude.{◌≡◌, ◌≤◌, ◌+◌, ◌++◌, length};
ghost use Rattle.lapi_base.specs.Packet.Heads.{getv_go_form};
ghost use Rattle.lapi_base.specs.Packet.Layout.{layout_of};
ghost use Rattle.lapi_packet.specs.Reader.{Reads};
ghost use Rattle.lapi_base.specs.Packet.PacketBytes as written;

use crate::fault::Fault;
use crate::number::write_one;
use crate::{counter, spans};
use lapi_base::{FRAME_ROOM, Frame, Head, Spans, longest_in};

#[tactic(auto, using(lapi_base::proofs::FormLaws::read_bind), unfolding(lapi_base::specs::Packet::Heads::getv_go_form))]
pub(crate) fn read(layout: u32, bytes: &[u8]) -> Result<(Head, &[u8]), Fault>
    ensures { Reads (getv_go_form (layout_of layout)) bytes.now result }
{
    let (tgt, rest) = counter::read(bytes)?;
    let (org, rest) = counter::read(rest)?;
    let (count, rest) = spans::read_count(rest)?;
    let (source, rest) = spans::read_within(longest_in(layout), count, rest)?;
    let (dest, rest) = spans::read_matching(source.as_slice(), rest)?;
    let head = Head::GetvGo {
        tgt,
        org,
        source,
        dest,
    };
    Ok((head, rest))
}

pub(crate) fn write(
    tgt: Option<u32>,
    org: Option<u32>,
    source: &Spans,
    dest: &Spans,
    out: &mut Frame,
)
    requires { length out.old + 259 ≤ FRAME_ROOM }
    ensures bytes { out.new ≡ out.old ++ written.head (Head.GetvGo tgt org source.now dest.now) }
    ensures room { length out.new ≤ length out.old + 259 }
{
    counter::write(tgt, out);
    counter::write(org, out);
    let source = source.as_slice();
    write_one(source.len() as u32, out);
    spans::write(source, out);
    spans::write(dest.as_slice(), out);
}
