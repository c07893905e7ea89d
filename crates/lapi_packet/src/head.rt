//! What a message carries before its payload: one form for each leg and operation, the same in both layouts but for
//! the longest length that is asked for.

ghost use Rattle.std.specs.Prelude.{◌≡◌, ◌≤◌, ◌+◌, ◌++◌, length};
ghost use Rattle.lapi_base.specs.Packet.Heads.{head_form};
ghost use Rattle.lapi_base.specs.Packet.Layout.{layout_of};
ghost use Rattle.lapi_packet.specs.Codes.{operation_number};
ghost use Rattle.lapi_packet.specs.Reader.{Reads};
ghost use Rattle.lapi_base.specs.Packet.PacketBytes as written;

mod addr;
mod am;
mod echo;
mod get_back;
mod get_go;
mod getv_back;
mod getv_go;
mod gfence;
mod note;
mod put;
mod putv;
mod rmw_back;
mod rmw_go;

use crate::fault::Fault;
use crate::operation::Operation;
use lapi_base::{FRAME_ROOM, Frame, Head, Leg, NoteOp};

#[tactic(auto, unfolding(lapi_base::specs::Packet::Heads::head_form))]
pub(crate) fn read(
    layout: u32,
    leg: Leg,
    operation: Operation,
    length: u32,
    bytes: &[u8],
) -> Result<(Head, &[u8]), Fault>
    ensures { Reads (head_form (layout_of layout) leg (operation_number operation) length) bytes.now result }
{
    match leg {
        Leg::Go => read_go(layout, operation, length, bytes),
        Leg::Back => match operation {
            Operation::Get => get_back::read(length, bytes),
            Operation::Getv => getv_back::read(length, bytes),
            _ => rmw_back::read(bytes),
        },
        Leg::Note => match operation {
            Operation::Put => note::read(NoteOp::Put, bytes),
            Operation::Putv => note::read(NoteOp::Putv, bytes),
            _ => note::read(NoteOp::Am, bytes),
        },
        Leg::Echo => echo::read(bytes),
        Leg::Join(_) => match operation {
            Operation::Gfence => gfence::read(bytes),
            _ => addr::read(bytes),
        },
    }
}

#[tactic(auto, unfolding(lapi_base::specs::Packet::Heads::head_form))]
fn read_go(
    layout: u32,
    operation: Operation,
    length: u32,
    bytes: &[u8],
) -> Result<(Head, &[u8]), Fault>
    ensures { Reads (head_form (layout_of layout) Leg.Go (operation_number operation) length)
        bytes.now result }
{
    match operation {
        Operation::Put => put::read(length, bytes),
        Operation::Get => get_go::read(layout, bytes),
        Operation::Putv => putv::read(length, bytes),
        Operation::Getv => getv_go::read(layout, bytes),
        Operation::Rmw => rmw_go::read(bytes),
        _ => am::read(bytes),
    }
}

pub(crate) fn write(head: &Head, out: &mut Frame)
    requires { length out.old + 259 ≤ FRAME_ROOM }
    ensures bytes { out.new ≡ out.old ++ written.head head.now }
    ensures room { length out.new ≤ length out.old + 259 }
{
    match head {
        Head::Put { at, tgt, cmpl } => put::write(*at, *tgt, *cmpl, out),
        Head::GetGo {
            asked,
            source,
            dest,
            tgt,
            org,
        } => get_go::write(*asked, *source, *dest, *tgt, *org, out),
        Head::GetBack { dest, org } => get_back::write(*dest, *org, out),
        Head::Putv { tgt, cmpl, pieces } => putv::write(*tgt, *cmpl, pieces, out),
        Head::GetvGo {
            tgt,
            org,
            source,
            dest,
        } => getv_go::write(*tgt, *org, source, dest, out),
        Head::GetvBack { org, dest } => getv_back::write(*org, dest, out),
        Head::RmwGo {
            op,
            at,
            in1,
            in2,
            prev,
            org,
        } => rmw_go::write(*op, *at, *in1, *in2, *prev, *org, out),
        Head::RmwBack { dest, org } => rmw_back::write(*dest, *org, out),
        Head::Am {
            handler,
            tgt,
            cmpl,
            header,
        } => am::write(*handler, *tgt, *cmpl, header, out),
        Head::Echo { dest, cmpl } => echo::write(*dest, *cmpl, out),
        Head::Note { cmpl, .. } => note::write(*cmpl, out),
        Head::Gfence { round } => gfence::write(*round, out),
        Head::Addr { round, address } => addr::write(*round, *address, out),
    }
}
