use lapi_base::{Frame, Packet, Reason};
use lapi_packet::{decode, encode, valid};
use std::alloc::Global;
use std::test::Fail;

/// The bytes of packets of each kind, leg and operation, and behind them of layout 2. The table of `lapi_rows` has what
/// each of them says.
const VECTORS: [&str; 20] = [
    "4c0101000100000000000001010100000008000000000010ffff6162636465666768",
    "4c010201000000000100000000",
    "4c010201000000000000000004",
    "4c01010001000000000000000101000000000000000000400000",
    "4c0101010000000000000000030100000000000000",
    "4c010100010000000000000101060000000400000100000c00000010000000200000000101020304",
    "4c010100010000000000000001020000000000000000000400000000000000100000",
    "4c010101000000000000000002020000000400000000001000aabbccdd",
    "4c010100010000000000000001050000000000000100000000000000010000000000000008ff",
    "4c01010001000000000000010408000000000000000000000008",
    "4c010100010000000000000004070000000000000000",
    "4c01010001000000000000000103000000050000ff0302000000100000000200000100000000036162636465",
    "4c010100010000000000000201040000000000003f0102000000000000000400010000000000000000fffc000000040000000800000000",
    "4c0101010000000000000002020400000004000001010000fffc000000047778797a",
    "4c0101010000000000000000020500000004000000000008ff00000005",
    "4c0101010000000000000000030300000000000000",
    "4c0101010000000000000000030600000000000000",
    "4c0201000100000000000001010100000008000000000010ffff6162636465666768",
    "4c02020100000000010000000000000000",
    "4c0201010000000000000001050600000004000000000020000000000a",
];

/// Bytes of both layouts that spell no packet, each with the place and the reason of its first fault.
const REFUSED: [(&str, usize, Reason); 8] = [
    ("4c02", 2, Reason::Short),
    ("4c03", 1, Reason::Version),
    // The lowest bit of an acknowledgement's 64.
    (
        "4c02020100000000010000000000000001",
        9,
        Reason::NotCanonical,
    ),
    // An acknowledgement's 32 bits, in layout 2.
    ("4c020201000000000100000000", 13, Reason::Short),
    // An answer in layout 1.
    (
        "4c0101010000000000000001050600000004000000000020000000000a",
        12,
        Reason::Kind,
    ),
    // An active message of 16,385 bytes, and a put of 65,537, in layout 2.
    ("4c0201000100000000000001010600004001", 14, Reason::Field),
    ("4c0201000100000000000001010100010001", 14, Reason::Field),
    // Fragment 64 of a put of 65,536 bytes.
    (
        "4c02010001000000000000010101000100000040",
        18,
        Reason::Field,
    ),
];

fn bytes_of(alloc: Global, digits: &str) -> Result<Vec<u8>, Fail> {
    let bytes = hex::decode(alloc, digits)?;
    Ok(bytes)
}

#[test]
fn known_packets_are_read_and_written(rt: HostRuntime) -> Result<(), Fail> {
    for text in VECTORS {
        let bytes = bytes_of(rt.alloc(), text)?;
        let Ok(packet) = decode(bytes.as_slice()) else {
            return Err(Fail::new(format_args!("no packet: {text}")));
        };
        assert!(rt; valid(&packet), "{text}");
        if valid(&packet) {
            let mut out = Frame::new();
            encode(&packet, &mut out);
            assert_eq!(rt; out.as_slice(), bytes.as_slice(), "{text}");
        }
    }
    Ok(())
}

/// An acknowledgement of task 0's packets.
fn acknowledgement(layout: u32, bits: u64) -> Packet {
    Packet::Ack {
        layout,
        from: 1,
        to: 0,
        base: 0,
        bits,
    }
}

#[test]
fn an_acknowledgement_has_the_bits_of_its_layout(rt: HostRuntime) -> Result<(), Fail> {
    let widest = 4_294_967_296;
    assert!(rt; valid(&acknowledgement(1, widest - 2)));
    assert!(rt; !valid(&acknowledgement(1, widest)));
    assert!(rt; valid(&acknowledgement(2, widest)));
    for layout in 1..3 {
        assert!(rt;
            !valid(&acknowledgement(layout, 1)),
            "the base's own bit, {layout}"
        );
    }
    for layout in [0, 3] {
        assert!(rt; !valid(&acknowledgement(layout, 0)), "no layout {layout}");
    }
    Ok(())
}

#[test]
fn a_refused_packet_has_the_place_of_its_first_fault(rt: HostRuntime) -> Result<(), Fail> {
    for (text, place, reason) in REFUSED {
        let bytes = bytes_of(rt.alloc(), text)?;
        assert_eq!(rt; refusal(bytes.as_slice()), Some((place, reason)), "{text}");
    }
    Ok(())
}

/// Where the bytes are refused as a packet, and why.
fn refusal(bytes: &[u8]) -> Option<(usize, Reason)> {
    match decode(bytes) {
        Ok(_) => None,
        Err(bad) => Some((bad.place as usize, bad.reason)),
    }
}

/// The bytes with ff in this place.
fn with_ff(alloc: Global, bytes: &[u8], place: usize) -> Result<Vec<u8>, Fail> {
    let mut changed = Vec::new(alloc);
    for (i, byte) in bytes.iter().enumerate() {
        changed.push(if i == place { 0xff } else { *byte })?;
    }
    Ok(changed)
}

#[test]
fn a_packet_that_is_cut_is_short(rt: HostRuntime) -> Result<(), Fail> {
    for text in VECTORS {
        let bytes = bytes_of(rt.alloc(), text)?;
        for n in 0..bytes.len() {
            let (front, _) = bytes.split_at(n);
            assert_eq!(rt; refusal(front), Some((n, Reason::Short)), "{text}");
        }
    }
    Ok(())
}

#[test]
fn a_packet_with_one_byte_more_is_long(rt: HostRuntime) -> Result<(), Fail> {
    for text in VECTORS {
        let mut bytes = bytes_of(rt.alloc(), text)?;
        let length = bytes.len();
        bytes.push(0)?;
        assert_eq!(rt;
            refusal(bytes.as_slice()),
            Some((length, Reason::Long)),
            "{text}"
        );
    }
    Ok(())
}

#[test]
fn a_packet_with_another_byte_is_refused_or_another_packet(rt: HostRuntime) -> Result<(), Fail> {
    for text in VECTORS {
        let bytes = bytes_of(rt.alloc(), text)?;
        for place in 0..bytes.len() {
            let changed = with_ff(rt.alloc(), bytes.as_slice(), place)?;
            let Ok(packet) = decode(changed.as_slice()) else {
                continue;
            };
            assert!(rt; valid(&packet), "{text} {place}");
            if valid(&packet) {
                let mut out = Frame::new();
                encode(&packet, &mut out);
                assert_eq!(rt; out.as_slice(), changed.as_slice(), "{text} {place}");
            }
        }
    }
    Ok(())
}
