//! The operation that a message belongs to.
//!
//! ```text
//! place  size  field  rule                                                 reason
//! 13     1     op     with Go 1 Put, 2 Get, 3 Putv, 4 Getv, 5 Rmw, 6 Am;   Kind
//!                     with Back 2, 4, 5; with Note 1, 3, 6; with Echo 6;
//!                     with Join 7 Gfence, 8 Addr
//! ```

ghost use Rattle.std.specs.Prelude.{◌≡◌};
ghost use Rattle.lapi_base.specs.Packet.Format.{reading};
ghost use Rattle.lapi_base.specs.Packet.Heads.{operation_form, is_operation};
ghost use Rattle.lapi_base.specs.Packet.PacketBytes.{head_number, note_number};
ghost use Rattle.lapi_packet.specs.Codes.{operation_number};
ghost use Rattle.lapi_packet.specs.Reader.{ReaderGives};

use crate::fault::{Fault, refused};
use crate::number::read_one;
use lapi_base::{Head, Leg, NoteOp, Reason};

#[derive(Clone, Copy)]
pub(crate) enum Operation {
    Put,
    Get,
    Putv,
    Getv,
    Rmw,
    Am,
    Gfence,
    Addr,
}

#[tactic(auto, unfolding(lapi_base::specs::Packet::Heads::operation_form))]
pub(crate) fn read(leg: Leg, bytes: &[u8]) -> Result<(Operation, &[u8]), Fault>
    ensures { ReaderGives (λ x. (operation_number x.0, x.1.now)) result
        (reading (operation_form leg) bytes.now) }
{
    let (number, rest) = read_one(bytes)?;
    if !is_operation(leg, number) {
        return Err(refused(bytes, Reason::Kind));
    }
    match number {
        1 => Ok((Operation::Put, rest)),
        2 => Ok((Operation::Get, rest)),
        3 => Ok((Operation::Putv, rest)),
        4 => Ok((Operation::Getv, rest)),
        5 => Ok((Operation::Rmw, rest)),
        6 => Ok((Operation::Am, rest)),
        7 => Ok((Operation::Gfence, rest)),
        _ => Ok((Operation::Addr, rest)),
    }
}

fn is_operation(leg: Leg, number: u32) -> bool
    ensures { result ≡ is_operation leg number }
{
    match leg {
        Leg::Go => 1 <= number && number <= 6,
        Leg::Back => number == 2 || number == 4 || number == 5,
        Leg::Note => number == 1 || number == 3 || number == 6,
        Leg::Echo => number == 6,
        Leg::Join(_) => number == 7 || number == 8,
    }
}

/// The number of the operation that a head is of.
pub(crate) fn number_of(head: &Head) -> u32
    ensures { result ≡ head_number head.now }
{
    match head {
        Head::Put { .. } => 1,
        Head::GetGo { .. } | Head::GetBack { .. } => 2,
        Head::Putv { .. } => 3,
        Head::GetvGo { .. } | Head::GetvBack { .. } => 4,
        Head::RmwGo { .. } | Head::RmwBack { .. } => 5,
        Head::Am { .. } | Head::Echo { .. } => 6,
        Head::Note { op, .. } => number_of_note(*op),
        Head::Gfence { .. } => 7,
        Head::Addr { .. } => 8,
    }
}

fn number_of_note(op: NoteOp) -> u32
    ensures { result ≡ note_number op }
{
    match op {
        NoteOp::Put => 1,
        NoteOp::Putv => 3,
        NoteOp::Am => 6,
    }
}
