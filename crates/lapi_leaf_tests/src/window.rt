use lapi_base::Bytes;
use lapi_window::{RecvWindow, SendWindow, Took};
use std::test::Fail;

/// A number, the answer to it, and base and bits of the acknowledgement after it.
const TAKEN: [(u32, Took, u32, u64); 6] = [
    (2, Took::Fresh, 0, 4),
    (1, Took::Fresh, 0, 6),
    (1, Took::Repeat, 0, 6),
    (64, Took::Beyond, 0, 6),
    (63, Took::Fresh, 0, 0x8000_0000_0000_0006),
    (0, Took::Fresh, 3, 0x1000_0000_0000_0000),
];

#[test]
fn an_acknowledgement_tells_what_was_taken(rt: HostRuntime) {
    let mut window = RecvWindow::new(64);
    for (seq, took, base, bits) in TAKEN {
        assert_eq!(rt; window.take(seq), took, "{seq}");
        assert_eq!(rt; window.ack(), (base, bits), "{seq}");
    }
    let mut window = RecvWindow::new(32);
    assert_eq!(rt; window.take(32), Took::Beyond);
    assert_eq!(rt; window.take(31), Took::Fresh);
    assert_eq!(rt; window.ack(), (0, 0x8000_0000));
}

#[test]
fn a_window_of_two_lends_two_packets(rt: HostRuntime) -> Result<(), Fail> {
    let mut window = SendWindow::new(rt.alloc(), 2)?;
    window.append(3);
    for number in 0..3u8 {
        let next = window.next();
        assert_eq!(rt; next, (number < 2).then_some(number.into()));
        if next.is_some() {
            window.sent(Bytes::from_slice(rt.alloc(), &[number])?);
        }
    }
    assert_eq!(rt;
        (window.numbers(), window.room(), window.unacked_len()),
        (3, 0, 2)
    );
    if window.unacked_len() == 2 {
        let (number, packet) = window.unacked(1);
        assert_eq!(rt; (number, packet.as_slice()), (1, [1].as_slice()));
    }
    assert!(rt; window.all_acked(0, 0) && !window.all_acked(0, 1));
    assert_eq!(rt; SendWindow::new(rt.alloc(), 64)?.next(), None);
    Ok(())
}
