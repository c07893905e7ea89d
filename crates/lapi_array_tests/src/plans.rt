use lapi_array::{compile, read_plan};
use lapi_base::{Act, Line, ReadFault, Statement, Which};
use std::test::Fail;

/// A set of four words, of which each block has two, and a get of two of them by the other task.
const SMALL: &[u8] =
    b"array 1\ngrid 1 2 block 2 2\nset 0 0 1 2 2 00000001000000020000000300000004\nget 1 1 1 1 2\ndone\n";

/// The number of a line of its schedule, and the wire and the entry that it delivers, as the definition of a plan's lines
/// has them: a set's words that stay at their task, the last acknowledgement of those that go, a fence, the second word
/// that a task gets of itself, and the last acknowledgement of all.
const DELIVERED: [(usize, u32, u32, u32); 5] = [
    (4, 0, 0, 0),
    (7, 1, 0, 0),
    (18, 0, 1, 2),
    (30, 1, 1, 1),
    (44, 0, 1, 6),
];

/// A get past the last column.
const WIDE: &[u8] = b"array 1\ngrid 1 2 block 2 2\nget 0 1 3 1 2\ndone\n";

#[test]
fn a_plan_is_compiled(rt: HostRuntime) -> Result<(), Fail> {
    let Ok(plan) = read_plan(rt.alloc(), SMALL) else {
        return Err(Fail::new(format_args!("not read")));
    };
    let input = compile(rt.alloc(), &plan)?;
    assert_eq!(rt; (input.script.tasks, input.script.memory), (2, 65_536));
    let lists = input.script.lists.as_slice();
    assert_eq!(rt; lists.len(), 2);
    assert_eq!(rt;
        (lists[0].as_slice().len(), lists[1].as_slice().len()),
        (5, 4)
    );
    assert!(rt; matches!(lists[0].as_slice()[0], Statement::Store { at: 16_384, .. }));
    let lines = input.schedule.as_slice();
    assert_eq!(rt; lines.len(), 49);
    for (number, from, to, entry) in DELIVERED {
        let Some(
            Line {
                lane: 0,
                act: Act::Deliver { a, b, k },
            },
        ) = lines.get(number)
        else {
            return Err(Fail::new(format_args!("no delivery: {number}")));
        };
        assert_eq!(rt; (*a, *b, *k), (from, to, entry), "{number}");
    }
    Ok(())
}

#[test]
fn a_patch_past_the_array_is_refused(rt: HostRuntime) -> Result<(), Fail> {
    let Err(fault) = read_plan(rt.alloc(), WIDE) else {
        return Err(Fail::new(format_args!("read")));
    };
    let ReadFault::Limit {
        which: Which::Range,
        line: 3,
    } = fault
    else {
        return Err(Fail::new(format_args!("another fault")));
    };
    Ok(())
}
