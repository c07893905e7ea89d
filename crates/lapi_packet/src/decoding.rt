ghost use Rattle.std.specs.Prelude.{◌≡◌, ◌-◌, ◌<◌, ◌≤◌, ◌^◌, length, Ok, IfOk, IfErr};
ghost use Rattle.lapi_base.specs.Packet.Spelling.{packet_form, Spells, Refuses, decoded};
ghost use Rattle.lapi_packet.specs.Reader.{Reads};

use crate::fault::Fault;
use crate::front::Kind;
use crate::{acknowledgement, data, front};
use lapi_base::{Bad, Packet, Reason};

/// The packet that the bytes spell, or their first fault: the place where the faulty field begins,
/// or where the bytes end too early or should have ended.
pub fn decode(bytes: &[u8]) -> Result<Packet, Bad>
    // What is answered is spelled so, and what is spelled so is answered.
    ensures found { IfOk result (λ p. Spells p bytes.now) }
    ensures only { (p : Packet) → Spells p bytes.now → result ≡ Ok p }
    // Everything else is refused, with its first fault.
    ensures refused { IfErr result (Refuses bytes.now) }
    ensures exact { result ≡ decoded bytes.now }
{
    answer(bytes)
}

fn answer(bytes: &[u8]) -> Result<Packet, Bad>
    ensures { result ≡ decoded bytes.now }
{
    match read(bytes) {
        Err(fault) => Err(bad_at(bytes, fault.left, fault.reason)),
        Ok((packet, rest)) => {
            if rest.is_empty() {
                Ok(packet)
            } else {
                Err(bad_at(bytes, rest.len(), Reason::Long))
            }
        }
    }
}

#[tactic(auto, using(lapi_base::proofs::FormLaws::read_bind), unfolding(lapi_base::specs::Packet::Spelling::packet_form))]
fn read(bytes: &[u8]) -> Result<(Packet, &[u8]), Fault>
    ensures { Reads packet_form bytes.now result }
{
    let (front, rest) = front::read(bytes)?;
    match front.kind {
        Kind::Data => data::read(front, rest),
        Kind::Acknowledgement => acknowledgement::read(front, rest),
    }
}

/// The fault of a field with `left` bytes from its first on.
fn bad_at(bytes: &[u8], left: usize, reason: Reason) -> Bad
    requires within { left ≤ length bytes.now }
    requires near { length bytes.now - left < 2 ^ 32 }
    ensures { result ≡ record { place = length bytes.now - left; reason = reason } }
{
    let place = (bytes.len() - left) as u32;
    Bad { place, reason }
}
