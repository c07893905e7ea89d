ghost use Rattle.std.specs.Prelude.{◌≡◌, length};

use lapi_base::{Bytes, DataPacket, Entries, Head, HeaderOut, Leg, MsgName, NoteOp, Payload};
use lapi_link::{Arrival, Receiver, Sender};
use std::test::Fail;

#[test]
#[tactic(auto, using(crate::proofs::Covered::covered_low))]
fn an_acknowledgement_answers_the_tag_that_it_covers(rt: HostRuntime) -> Result<(), Fail> {
    let mut sender = Sender::new(rt.alloc(), 64)?;
    sender.append(Bytes::from_slice(rt.alloc(), b"first")?, Some(7))?;
    sender.append(Bytes::from_slice(rt.alloc(), b"second")?, None)?;
    let mut entries = Entries::new(rt.alloc());
    sender.send(1, &mut entries)?;
    sender.append(Bytes::from_slice(rt.alloc(), b"third")?, Some(9))?;
    match sender.window().next() {
        Some(sent) => {
            assert_eq!(rt; sent, 2);
            let tags = sender.acked(sent, 0);
            assert_eq!(rt; tags.as_slice(), [7].as_slice());
        }
        None => assert!(rt; false, "one packet waits"),
    }
    sender.resend(rt.alloc(), 1, &mut entries)?;
    assert_eq!(rt; entries.as_slice().len(), 2);
    assert_eq!(rt; sender.window().base(), 2);
    assert!(rt; !sender.is_settled());
    Ok(())
}

const NAME: MsgName = MsgName {
    origin: 0,
    statement: 3,
    leg: Leg::Go,
};

/// The later of the two fragments of a message of 257 bytes.
fn later_fragment() -> DataPacket
    ensures sizes { (result.length ≡ 257) × (result.fragment ≡ 1) × (length result.payload ≡ 1) }
    ensures number { result.seq ≡ 0 }
    ensures name { result.name ≡ NAME }
{
    let mut payload = Payload::new();
    payload.push(9);
    DataPacket {
        layout: 1,
        from: 0,
        to: 1,
        seq: 0,
        name: NAME,
        head: Head::Note {
            op: NoteOp::Put,
            cmpl: 2,
        },
        length: 257,
        fragment: 1,
        payload,
    }
}

#[test]
fn an_answer_is_kept_for_a_message_in_part(rt: HostRuntime) -> Result<(), Fail> {
    let mut receiver = Receiver::new(rt.alloc(), 32, 256)?;
    let packet = later_fragment();
    let arrival = receiver.arrive(rt.alloc(), &packet)?;
    match arrival {
        Arrival::First => {
            receiver.answer(
                NAME,
                HeaderOut {
                    place: Some(16),
                    completion: None,
                    user: 5,
                },
            );
            assert_eq!(rt; receiver.ack(), (1, 0));
        }
        Arrival::Repeat | Arrival::More | Arrival::Whole(_) | Arrival::FirstWhole(_) => {
            assert!(rt; false, "it is the first fragment")
        }
    }
    Ok(())
}
