//! Captures of which one byte is another, read by the reader, and by a plain program that goes over all earlier frames
//! at each. How often each answer comes was counted by a program in another language.

ghost use Rattle.std.specs.Prelude.{◌<◌};

use lapi_base::{DataPacket, Packet};
use lapi_capture::{FeedFault, Flaw, Landing, Reader};
use lapi_packet::decode;
use std::alloc::Global;
use std::test::Fail;

/// The capture of `examples/exchange.lapi`.
const EXCHANGE: [&str; 18] = [
    "4c4c4301",
    "0001001a4c01010001000000000000010408000000000000000000000010",
    "0100001a4c01010100000000000100010408000000000000000000000020",
    "0100000d4c010201000000000100000000",
    "0001000d4c010200010000000100000000",
    "0001001e4c0101000100000001000002010100000004000000000020000111111111",
    "0100001e4c0101010000000001010002010100000004000000000010000122222222",
    "0100000d4c010201000000000200000000",
    "0001000d4c010200010000000200000000",
    "000100154c0101000100000002010002030100000000000001",
    "010000154c0101010000000002000002030100000000000001",
    "0100000d4c010201000000000300000000",
    "0001000d4c010200010000000300000000",
    "000100164c010100010000000300000404070000000000000000",
    "010000164c010101000000000301000404070000000000000000",
    "0100000d4c010201000000000400000000",
    "0001000d4c010200010000000400000000",
    "ff",
];

/// Three fragments of a put of 768 bytes, the last one first and the middle one twice, each up to its first byte that
/// was put. 255 bytes of 0 follow.
const FRAGMENTS: [&str; 4] = [
    "0001011a4c0101000100000002000003010100000300000200000000ffff03",
    "0001011a4c0101000100000001000003010100000300000100000000ffff02",
    "0001011a4c0101000100000001000003010100000300000100000000ffff02",
    "0001011a4c0101000100000000000003010100000300000000000000ffff01",
];

const MAGIC: [u8; 4] = [0x4c, 0x4c, 0x43, 1];

/// How many frames a capture has, and the landings in them.
#[derive(Debug, Drop, Eq, PartialEq)]
struct Whole {
    frames: usize,
    landings: Vec<Landing>,
}

/// How often each answer came, and how many landings in all.
#[derive(Clone, Copy, Debug, Default, Eq, PartialEq)]
struct Counts {
    magic: u32,
    task: u32,
    size: u32,
    early: u32,
    after: u32,
    clash: u32,
    whole: u32,
    landings: usize,
}

fn bad(place: usize, flaw: Flaw) -> FeedFault {
    FeedFault::Bad {
        place: place as u64,
        flaw,
    }
}

/// The first frame of these bytes and those behind it, or their first fault with its place among them.
fn first_frame(bytes: &[u8]) -> Result<(&[u8], &[u8]), (usize, Flaw)> {
    let early = (bytes.len(), Flaw::Early);
    for place in 0..2 {
        let task = bytes.get(place).ok_or(early)?;
        if *task > 7 {
            return Err((place, Flaw::Task));
        }
    }
    if bytes.len() < 4 {
        return Err(early);
    }
    let size = 256 * usize::from(bytes[2]) + usize::from(bytes[3]);
    if size > 1280 {
        return Err((2, Flaw::Size));
    }
    if bytes.len() < 4 + size {
        return Err(early);
    }
    Ok(bytes.split_at(4 + size))
}

/// Finds the whole frames up to the end or the first fault but for Clash; that fault.
fn find_frames<'a>(bytes: &'a [u8], frames: &mut Vec<&'a [u8]>) -> Result<Option<FeedFault>, Fail> {
    let early = Some(bad(bytes.len(), Flaw::Early));
    for (place, magic) in MAGIC.iter().enumerate() {
        match bytes.get(place) {
            None => return Ok(early),
            Some(byte) if byte != magic => return Ok(Some(bad(place, Flaw::Magic))),
            Some(_) => {}
        }
    }
    let mut rest = bytes.get(MAGIC.len()..).unwrap_or(&[]);
    for _ in 0..bytes.len() {
        let place = bytes.len().saturating_sub(rest.len());
        match rest.split_first() {
            None => break,
            Some((byte, behind)) if *byte == 0xff => {
                let after = bad(place.saturating_add(1), Flaw::After);
                return Ok(if behind.is_empty() { None } else { Some(after) });
            }
            Some(_) => {}
        }
        if frames.len() == 20_000 {
            let place = place as u64;
            return Ok(Some(FeedFault::Limit { place }));
        }
        match first_frame(rest) {
            Err((n, flaw)) => return Ok(Some(bad(place.saturating_add(n), flaw))),
            Ok((frame, behind)) => {
                frames.push(frame)?;
                rest = behind;
            }
        }
    }
    Ok(early)
}

fn packet_of(frame: &[u8]) -> Option<Packet> {
    decode(frame.get(4..)?).ok()
}

fn data_of(frame: &[u8]) -> Option<DataPacket> {
    match packet_of(frame)? {
        Packet::Data(packet) => Some(packet),
        Packet::Ack { .. } => None,
    }
}

fn is_addressed(frame: &[u8]) -> bool {
    let (from, to) = match packet_of(frame) {
        None => return true,
        Some(Packet::Data(packet)) => (packet.from, packet.to),
        Some(Packet::Ack { from, to, .. }) => (from, to),
    };
    frame.first().is_some_and(|task| u32::from(*task) == from)
        && frame.get(1).is_some_and(|task| u32::from(*task) == to)
}

/// Whether a frame has a fragment of a packet's message.
fn is_of(frame: &[u8], packet: &DataPacket) -> Option<DataPacket> {
    let other = data_of(frame)?;
    if other.name == packet.name && other.to == packet.to {
        Some(other)
    } else {
        None
    }
}

fn clashes(before: &[&[u8]], frame: &[u8]) -> bool {
    let Some(packet) = data_of(frame) else {
        return !is_addressed(frame);
    };
    !is_addressed(frame)
        || before.iter().any(|earlier| is_of(earlier, &packet).is_some_and(|other| other.layout
            != packet.layout
            || other.length != packet.length))
}

/// Whether all fragments of a packet's message are in these frames.
fn is_whole(frames: &[&[u8]], packet: &DataPacket) -> bool {
    let unit = if packet.layout == 2 { 1024 } else { 256 };
    let count = packet.length.div_ceil(unit).max(1);
    (0..count).all(|number| {
        frames.iter().any(|frame| is_of(frame, packet).is_some_and(|other| other.fragment
            == number))
    })
}

/// The landing of the last of these frames, if it has one.
fn landing_in(frames: &[&[u8]]) -> Option<Landing> {
    let (last, before) = frames.split_last()?;
    let packet = data_of(last)?;
    if is_whole(before, &packet) || !is_whole(frames, &packet) {
        return None;
    }
    Some(Landing {
        frame: u32::try_from(before.len()).ok()?,
        name: packet.name,
        to: packet.to,
    })
}

/// What a capture comes to.
fn judge(alloc: Global, bytes: &[u8]) -> Result<Result<Whole, FeedFault>, Fail> {
    let mut frames = Vec::new(alloc);
    let fault = find_frames(bytes, &mut frames)?;
    let mut landings = Vec::new(alloc);
    let mut place = MAGIC.len();
    for (n, frame) in frames.as_slice().iter().enumerate() {
        let (before, _) = frames.as_slice().split_at(n);
        if clashes(before, frame) {
            return Ok(Err(bad(place, Flaw::Clash)));
        }
        let (through, _) = frames.as_slice().split_at(n + 1);
        if let Some(landing) = landing_in(through) {
            landings.push(landing)?;
        }
        place = place.saturating_add(frame.len());
    }
    let frames = frames.len();
    Ok(match fault {
        Some(fault) => Err(fault),
        None => Ok(Whole { frames, landings }),
    })
}

/// What a reader tells of a capture that is fed in pieces of a size.
fn read(alloc: Global, bytes: &[u8], size: usize) -> Result<Result<Whole, FeedFault>, Fail>
    requires { 0 < size }
{
    let mut reader = Reader::new(alloc);
    for piece in bytes.chunks(size) {
        if let Err(fault) = reader.feed(piece) {
            return Ok(Err(fault));
        }
    }
    if let Err(fault) = reader.end() {
        return Ok(Err(fault));
    }
    Ok(Ok(Whole {
        frames: reader.frames() as usize,
        landings: Vec::from_slice(alloc, reader.landings())?,
    }))
}

fn count(answer: &Result<Whole, FeedFault>, counts: &mut Counts) {
    let count = match answer {
        Ok(whole) => {
            counts.landings = counts.landings.saturating_add(whole.landings.len());
            &mut counts.whole
        }
        Err(FeedFault::Bad { flaw, .. }) => match flaw {
            Flaw::Magic => &mut counts.magic,
            Flaw::Task => &mut counts.task,
            Flaw::Size => &mut counts.size,
            Flaw::Early => &mut counts.early,
            Flaw::After => &mut counts.after,
            Flaw::Clash => &mut counts.clash,
        },
        Err(FeedFault::Limit { .. } | FeedFault::Memory) => return,
    };
    *count = count.saturating_add(1);
}

/// Reads a capture with each byte in turn replaced by 00 and by ff; how often each answer came.
fn change_each(alloc: Global, capture: &[u8]) -> Result<Counts, Fail> {
    let mut counts = Counts::default();
    for place in 0..capture.len() {
        for byte in [0, 0xff] {
            let mut changed = Vec::from_slice(alloc, capture)?;
            changed[place] = byte;
            let wanted = judge(alloc, changed.as_slice())?;
            let answer = read(alloc, changed.as_slice(), 1 + place % 50)?;
            if answer != wanted {
                return Err(Fail::new(format_args!(
                    "byte {place} as {byte}: {answer:?} in place of {wanted:?}"
                )));
            }
            count(&answer, &mut counts);
        }
    }
    Ok(counts)
}

fn exchange(alloc: Global) -> Result<Vec<u8>, Fail> {
    let mut bytes = Vec::new(alloc);
    for digits in EXCHANGE {
        let part = hex::decode(alloc, digits)?;
        bytes.extend_from_slice(part.as_slice())?;
    }
    Ok(bytes)
}

fn fragments(alloc: Global) -> Result<Vec<u8>, Fail> {
    let mut bytes = Vec::from_slice(alloc, &MAGIC)?;
    for digits in FRAGMENTS {
        let part = hex::decode(alloc, digits)?;
        bytes.extend_from_slice(part.as_slice())?;
        bytes.extend_from_slice(&[0; 255])?;
    }
    bytes.push(0xff)?;
    Ok(bytes)
}

#[test]
fn each_front_of_an_exchange_ends_early_at_its_length(rt: HostRuntime) -> Result<(), Fail> {
    let bytes = exchange(rt.alloc())?;
    assert_eq!(rt; bytes.len(), 371);
    for n in 0..bytes.len() {
        let (front, _) = bytes.split_at(n);
        let answer = read(rt.alloc(), front, 1 + n % 50)?;
        assert_eq!(rt; answer, Err(bad(n, Flaw::Early)));
    }
    Ok(())
}

#[test]
fn an_exchange_with_another_byte_is_read_as_it_is(rt: HostRuntime) -> Result<(), Fail> {
    let bytes = exchange(rt.alloc())?;
    let counts = Counts {
        magic: 8,
        task: 34,
        size: 16,
        early: 14,
        after: 16,
        clash: 26,
        whole: 628,
        landings: 4832,
    };
    assert_eq!(rt; change_each(rt.alloc(), bytes.as_slice())?, counts);
    Ok(())
}

#[test]
fn fragments_with_another_byte_are_read_as_they_are(rt: HostRuntime) -> Result<(), Fail> {
    let bytes = fragments(rt.alloc())?;
    assert_eq!(rt; bytes.len(), 1149);
    let counts = Counts {
        magic: 8,
        task: 9,
        size: 4,
        early: 4,
        after: 4,
        clash: 12,
        whole: 2257,
        landings: 2204,
    };
    assert_eq!(rt; change_each(rt.alloc(), bytes.as_slice())?, counts);
    Ok(())
}

#[test]
fn one_frame_too_many_is_told_before_its_task(rt: HostRuntime) -> Result<(), Fail> {
    let mut bytes = Vec::from_slice(rt.alloc(), &MAGIC)?;
    for _ in 0..20_000 {
        bytes.extend_from_slice(&[7, 7, 0, 0])?;
    }
    let place = bytes.len() as u64;
    bytes.push(0xff)?;
    let whole = Whole {
        frames: 20_000,
        landings: Vec::new(rt.alloc()),
    };
    assert_eq!(rt; read(rt.alloc(), bytes.as_slice(), 4096)?, Ok(whole));
    for byte in [7, 8] {
        bytes.pop();
        bytes.push(byte)?;
        assert_eq!(rt;
            read(rt.alloc(), bytes.as_slice(), 4096)?,
            Err(FeedFault::Limit { place })
        );
    }
    Ok(())
}
