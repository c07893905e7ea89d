ghost use Rattle.std.specs.Prelude.{◌≤◌, length};

use lapi_base::{Refusal, Span, Spans};
use lapi_memory::TaskMemory;
use lapi_vector::Pieces;
use std::alloc::Global;
use std::process::Abort;
use std::test::Fail;

fn list(pieces: &[(u64, u32)]) -> Pieces
    requires { length pieces.now ≤ 16 }
{
    let mut spans = Spans::new();
    for (at, len) in pieces {
        spans.push(Span { at: *at, len: *len });
    }
    Pieces::list(spans)
}

/// Puts the bytes of one side into the other.
fn put(
    rt: &impl Abort,
    alloc: Global,
    from: (&Pieces, &TaskMemory),
    to: (&Pieces, &mut TaskMemory),
) -> Result<(), Fail> {
    let (org, source) = from;
    let (tgt, target) = to;
    assert!(rt; org.within(source.size()) && tgt.within(target.size()));
    let bytes = org.gather(alloc, source)?;
    assert_eq!(rt; bytes.as_slice().len() as u64, tgt.total());
    tgt.scatter(target, bytes.as_slice());
    Ok(())
}

#[test]
fn pieces_are_put_in_their_order(rt: HostRuntime) -> Result<(), Fail> {
    let stored = b"\x00\x01\x02\x03\x04\x05\x06\x07\x08\x09\x0a\x0b\x0c\x0d\x0e\x0f";
    let mut source = TaskMemory::new(rt.alloc(), 64)?;
    let mut target = TaskMemory::new(rt.alloc(), 64)?;
    source.write(0, stored);
    let all = Pieces::stride(0, 4, 4, 4);
    let apart = Pieces::stride(32, 2, 4, 4);
    let halves = list(&[(0, 2), (2, 2), (4, 2), (6, 2)]);
    let whole = list(&[(0, 8)]);
    let overlapping = list(&[(62, 2), (48, 4), (64, 0), (49, 2)]);
    put(&rt, rt.alloc(), (&all, &source), (&all, &mut target))?;
    put(&rt, rt.alloc(), (&halves, &source), (&apart, &mut target))?;
    put(
        &rt,
        rt.alloc(),
        (&whole, &source),
        (&overlapping, &mut target),
    )?;
    let span = Span { at: 0, len: 64 };
    assert!(rt; target.fits(&span));
    let bytes = target.read(&span);
    assert_eq!(rt; bytes.len(), 64);
    let (first, rest) = bytes.split_at(32);
    let (second, third) = rest.split_at(16);
    assert!(rt; first.starts_with(stored));
    assert_eq!(rt;
        second,
        b"\x00\x01\x00\x00\x02\x03\x00\x00\x04\x05\x00\x00\x06\x07\x00\x00".as_slice()
    );
    assert_eq!(rt;
        third,
        b"\x02\x06\x07\x05\0\0\0\0\0\0\0\0\0\0\x00\x01".as_slice()
    );
    Ok(())
}

#[test]
fn sides_that_do_not_fit_are_refused_in_order(rt: HostRuntime) {
    let one = list(&[(0, 4)]);
    let two = list(&[(0, 4), (4, 4)]);
    let uneven = list(&[(0, 4), (4, 8)]);
    let apart = Pieces::stride(0, 8, 8, 2);
    let close = Pieces::stride(0, 8, 4, 2);
    let one_close = Pieces::stride(0, 4, 3, 1);
    let rows = [
        (&one, &two, Err(Refusal::VecCount)),
        (&two, &uneven, Err(Refusal::VecLength)),
        (&close, &apart, Err(Refusal::StrideBelowBlock)),
        (&apart, &close, Err(Refusal::StrideBelowBlock)),
        (&one, &one_close, Err(Refusal::StrideBelowBlock)),
        (&close, &one, Err(Refusal::VecCount)),
        (&two, &close, Err(Refusal::VecLength)),
        (&apart, &apart, Ok(())),
    ];
    for (tgt, org, answer) in rows {
        assert_eq!(rt; Pieces::check(tgt, org), answer);
    }
    let far = Pieces::stride(8_589_934_591, u32::MAX, u32::MAX, 16);
    assert_eq!(rt; far.total(), 68_719_476_720);
    assert!(rt; !far.within(u32::MAX) && !list(&[(u64::MAX, 1)]).within(64));
}
