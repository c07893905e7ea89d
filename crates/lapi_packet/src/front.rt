//! The front of every packet.
//!
//! ```text
//! place  size  field    rule                         reason
//! 0      1     magic    4c                           Magic
//! 1      1     version  the layout: 01 or 02         Version
//! 2      1     kind     1 data, 2 acknowledgement    Kind
//! 3      1     from     at most 7                    Task
//! 4      1     to       at most 7                    Task
//! ```

ghost use Rattle.std.specs.Prelude.{◌≡◌, ◌≤◌, ◌+◌, ◌++◌, length};
ghost use Rattle.lapi_base.specs.Packet.Format.{reading, One, field};
ghost use Rattle.lapi_base.specs.Packet.Spelling.{front_form, task_form, kind_form};
ghost use Rattle.lapi_packet.specs.Codes.{kind_number, front_of};
ghost use Rattle.lapi_packet.specs.Reader.{ReaderGives, Reads};
ghost use Rattle.lapi_base.specs.Packet.PacketBytes as written;

use crate::fault::{Fault, refused};
use crate::number::{read_one, write_one};
use lapi_base::{FRAME_ROOM, Frame, Reason, is_version};

const MAGIC: u32 = 0x4c;

const LAST_TASK: u32 = 7;

#[derive(Clone, Copy)]
pub(crate) enum Kind {
    Data,
    Acknowledgement,
}

#[derive(Clone, Copy)]
pub(crate) struct Front {
    pub(crate) layout: u32,
    pub(crate) kind: Kind,
    pub(crate) from: u32,
    pub(crate) to: u32,
}

#[tactic(auto, using(lapi_base::proofs::FormLaws::read_bind), unfolding(lapi_base::specs::Packet::Spelling::front_form))]
pub(crate) fn read(bytes: &[u8]) -> Result<(Front, &[u8]), Fault>
    ensures { ReaderGives (λ x. (front_of x.0, x.1.now)) result (reading front_form bytes.now) }
{
    let (magic, after_magic) = read_one(bytes)?;
    if magic != MAGIC {
        return Err(refused(bytes, Reason::Magic));
    }
    let (layout, after_version) = read_one(after_magic)?;
    if !is_version(layout) {
        return Err(refused(after_magic, Reason::Version));
    }
    let (kind, rest) = read_kind(after_version)?;
    let (from, rest) = read_task(rest)?;
    let (to, rest) = read_task(rest)?;
    let front = Front {
        layout,
        kind,
        from,
        to,
    };
    Ok((front, rest))
}

#[tactic(auto, unfolding(lapi_base::specs::Packet::Spelling::kind_form))]
fn read_kind(bytes: &[u8]) -> Result<(Kind, &[u8]), Fault>
    ensures { ReaderGives (λ x. (kind_number x.0, x.1.now)) result (reading kind_form bytes.now) }
{
    let (number, rest) = read_one(bytes)?;
    match number {
        1 => Ok((Kind::Data, rest)),
        2 => Ok((Kind::Acknowledgement, rest)),
        _ => Err(refused(bytes, Reason::Kind)),
    }
}

#[tactic(auto, unfolding(lapi_base::specs::Packet::Spelling::task_form))]
fn read_task(bytes: &[u8]) -> Result<(u32, &[u8]), Fault>
    ensures { Reads task_form bytes.now result }
{
    let (task, rest) = read_one(bytes)?;
    if task > LAST_TASK {
        return Err(refused(bytes, Reason::Task));
    }
    Ok((task, rest))
}

fn number_of(kind: Kind) -> u32
    ensures { result ≡ kind_number kind }
{
    match kind {
        Kind::Data => 1,
        Kind::Acknowledgement => 2,
    }
}

pub(crate) fn write(front: Front, out: &mut Frame)
    requires { length out.old + 5 ≤ FRAME_ROOM }
    ensures { out.new ≡ out.old ++ written.front front.layout (kind_number front.kind) front.from front.to }
{
    write_one(MAGIC, out);
    write_one(front.layout, out);
    write_one(number_of(front.kind), out);
    write_one(front.from, out);
    write_one(front.to, out);
}
