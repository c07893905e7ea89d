//! The head of Rmw with Go.
//!
//! ```text
//! size  field   rule                                        reason
//! 1     op      1 Add, 2 Or, 3 Swap, 4 Cas                  Field
//! 4     at      a multiple of 4, at most 65,532             Field
//! 4     in1     any
//! 4     in2     0 unless op is 4                            NotCanonical
//! 4     prev    a multiple of 4, at most 65,532             Field
//! 1     org     below 64, or ff for none                    Field
//! ```

ghost use Rattle.std.specs.Prelude.{◌≡◌, ◌≤◌, ◌+◌, ◌++◌, length};
ghost use Rattle.lapi_base.specs.Packet.Heads.{rmw_go_form, update_form, update_of};
ghost use Rattle.lapi_base.specs.Packet.PacketBytes.{update_number};
ghost use Rattle.lapi_packet.specs.Reader.{Reads};
ghost use Rattle.lapi_base.specs.Packet.PacketBytes as written;

use crate::counter;
use crate::fault::{Fault, refused};
use crate::number::{read_four, read_one, write_four, write_one};
use crate::range::read_word;
use lapi_base::{FRAME_ROOM, Frame, Head, Reason, RmwOp};

#[tactic(auto, using(lapi_base::proofs::FormLaws::read_bind), unfolding(lapi_base::specs::Packet::Heads::rmw_go_form))]
pub(crate) fn read(bytes: &[u8]) -> Result<(Head, &[u8]), Fault>
    ensures { Reads rmw_go_form bytes.now result }
{
    let (op, rest) = read_update(bytes)?;
    let (at, rest) = read_word(rest)?;
    let (in1, after_in1) = read_four(rest)?;
    let (in2, rest) = read_four(after_in1)?;
    if op != 4 && in2 != 0 {
        return Err(refused(after_in1, Reason::NotCanonical));
    }
    let (prev, rest) = read_word(rest)?;
    let (org, rest) = counter::read(rest)?;
    let head = Head::RmwGo {
        op: update_of(op),
        at,
        in1,
        in2,
        prev,
        org,
    };
    Ok((head, rest))
}

pub(crate) fn write(
    op: RmwOp,
    at: u32,
    in1: u32,
    in2: u32,
    prev: u32,
    org: Option<u32>,
    out: &mut Frame,
)
    requires { length out.old + 18 ≤ FRAME_ROOM }
    ensures bytes { out.new ≡ out.old ++ written.head (Head.RmwGo op at in1 in2 prev org) }
    ensures room { length out.new ≤ length out.old + 18 }
{
    write_one(number_of(op), out);
    write_four(at, out);
    write_four(in1, out);
    write_four(in2, out);
    write_four(prev, out);
    counter::write(org, out);
}

#[tactic(auto, unfolding(lapi_base::specs::Packet::Heads::update_form))]
fn read_update(bytes: &[u8]) -> Result<(u32, &[u8]), Fault>
    ensures { Reads update_form bytes.now result }
{
    let (number, rest) = read_one(bytes)?;
    if number < 1 || number > 4 {
        return Err(refused(bytes, Reason::Field));
    }
    Ok((number, rest))
}

fn update_of(number: u32) -> RmwOp
    ensures { result ≡ update_of number }
{
    match number {
        1 => RmwOp::Add,
        2 => RmwOp::Or,
        3 => RmwOp::Swap,
        _ => RmwOp::Cas,
    }
}

fn number_of(op: RmwOp) -> u32
    ensures { result ≡ update_number op }
{
    match op {
        RmwOp::Add => 1,
        RmwOp::Or => 2,
        RmwOp::Swap => 3,
        RmwOp::Cas => 4,
    }
}
