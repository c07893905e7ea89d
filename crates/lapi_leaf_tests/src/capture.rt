use lapi_base::{Leg, MsgName};
use lapi_capture::{FeedFault, Flaw, Landing, Reader};
use std::alloc::Global;
use std::test::Fail;

/// A capture of a put and its acknowledgement: the first bytes, two frames, and the end.
const CAPTURE: [&str; 4] = [
    "4c4c4301",
    "000100224c0101000100000000000001010100000008000000000010ffff6162636465666768",
    "0100000d4c010201000000000100000000",
    "ff",
];

fn capture(alloc: Global) -> Result<Vec<u8>, Fail> {
    let mut bytes = Vec::new(alloc);
    for digits in CAPTURE {
        let part = hex::decode(alloc, digits)?;
        bytes.extend_from_slice(part.as_slice())?;
    }
    Ok(bytes)
}

#[test]
fn a_capture_tells_its_landing_however_it_is_cut(rt: HostRuntime) -> Result<(), Fail> {
    let bytes = capture(rt.alloc())?;
    assert_eq!(rt; bytes.len(), 60);
    let name = MsgName {
        origin: 0,
        statement: 1,
        leg: Leg::Go,
    };
    let landing = Landing {
        frame: 0,
        name,
        to: 1,
    };
    for size in [1, 7, 60] {
        let mut reader = Reader::new(rt.alloc());
        for piece in bytes.chunks(size) {
            assert_eq!(rt; reader.feed(piece), Ok(()), "{size}");
        }
        assert_eq!(rt; reader.end(), Ok(()), "{size}");
        assert_eq!(rt; reader.landings(), [landing].as_slice(), "{size}");
        assert_eq!(rt; reader.frames(), 2, "{size}");
    }
    Ok(())
}

#[test]
fn a_front_of_a_capture_ends_early_at_its_length(rt: HostRuntime) -> Result<(), Fail> {
    let bytes = capture(rt.alloc())?;
    for n in 0..bytes.len() {
        let (front, _) = bytes.split_at(n);
        let mut reader = Reader::new(rt.alloc());
        assert_eq!(rt; reader.feed(front), Ok(()), "{n}");
        let early = FeedFault::Bad {
            place: n as u64,
            flaw: Flaw::Early,
        };
        assert_eq!(rt; reader.end(), Err(early));
    }
    Ok(())
}

#[test]
fn faults_have_their_places_and_stay(rt: HostRuntime) -> Result<(), Fail> {
    let rows = [
        ("4c4c4302", 3, Flaw::Magic),
        ("4c4c430108", 4, Flaw::Task),
        ("4c4c43010008", 5, Flaw::Task),
        ("4c4c430100010501", 6, Flaw::Size),
        ("4c4c4301ff00", 5, Flaw::After),
        // An acknowledgement of tasks 1 and 0 in a frame of tasks 0 and 1.
        ("4c4c43010001000d4c010201000000000100000000", 4, Flaw::Clash),
    ];
    for (digits, place, flaw) in rows {
        let bytes = hex::decode(rt.alloc(), digits)?;
        let fault = FeedFault::Bad { place, flaw };
        let mut reader = Reader::new(rt.alloc());
        assert_eq!(rt; reader.feed(bytes.as_slice()), Err(fault), "{digits}");
        assert_eq!(rt; reader.feed(bytes.as_slice()), Err(fault), "{digits}");
        assert_eq!(rt; reader.end(), Err(fault), "{digits}");
    }
    let mut reader = Reader::new(rt.alloc());
    let whole = capture(rt.alloc())?;
    assert_eq!(rt; reader.feed(whole.as_slice()), Ok(()));
    let after = FeedFault::Bad {
        place: 60,
        flaw: Flaw::After,
    };
    assert_eq!(rt; reader.feed(&[0]), Err(after));
    Ok(())
}
