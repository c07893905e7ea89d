use lapi_base::{RmwOp, Span};
use lapi_memory::{TaskMemory, rmw};
use std::process::Abort;
use std::test::Fail;

/// The old word, the operands and the new word of a read-modify-write.
const WORDS: [(RmwOp, u32, u32, u32, u32); 10] = [
    (RmwOp::Add, 0xffff_ffff, 1, 0, 0),
    (RmwOp::Add, 0xffff_ffff, 0xffff_ffff, 0, 0xffff_fffe),
    (RmwOp::Add, 0x7fff_ffff, 1, 0, 0x8000_0000),
    (RmwOp::Or, 0, 6, 0, 6),
    (RmwOp::Or, 0x0f0f_0f0f, 0xff00_00ff, 0, 0xff0f_0fff),
    (RmwOp::Swap, 6, 9, 0, 9),
    (RmwOp::Swap, 0, 0xffff_ffff, 0, 0xffff_ffff),
    (RmwOp::Cas, 9, 5, 7, 9),
    (RmwOp::Cas, 5, 5, 7, 7),
    (RmwOp::Cas, 0xffff_ffff, 0xffff_ffff, 0, 0),
];

/// Place and length of a span, and whether it lies in a memory of 65,536 bytes.
const SPANS: [(u64, u32, bool); 7] = [
    (0, 65_536, true),
    (0, 65_537, false),
    (65_536, 0, true),
    (65_537, 0, false),
    (65_533, 4, false),
    (u64::MAX, 1, false),
    (1, u32::MAX, false),
];

#[test]
fn words_and_spans_of_a_memory(rt: HostRuntime) -> Result<(), Fail> {
    for (op, old, in1, in2, new) in WORDS {
        assert_eq!(rt; rmw(op, old, in1, in2), new, "{op:?} {old} {in1} {in2}");
    }
    let memory = TaskMemory::new(rt.alloc(), 65_536)?;
    for (at, len, fits) in SPANS {
        assert_eq!(rt; memory.fits(&Span { at, len }), fits, "{at} {len}");
    }
    let mut memory = TaskMemory::new(rt.alloc(), 64)?;
    memory.write(3, b"abcdefgh");
    memory.set_word(8, 0x0102_0304);
    let span = Span { at: 2, len: 11 };
    assert_eq!(rt; memory.read(&span), b"\0abcde\x01\x02\x03\x04\0".as_slice());
    assert_eq!(rt; (memory.word(3), memory.word(60)), (0x6162_6364, 0));
    Ok(())
}
