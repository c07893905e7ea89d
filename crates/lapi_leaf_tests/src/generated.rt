use lapi_base::{Act, Addr, Line, Statement};
use lapi_gen::generate;
use std::test::Fail;

/// The first bytes that task 0 stores in the seventh input, worked out by a plain program.
const STORED: [u8; 4] = [188, 127, 98, 34];

/// The number of a line of that input, and the tasks and the entry that it delivers, as a plain program has them: a
/// lost packet that is sent again and acknowledged, the first packet of the answer, a request of twelve packets from
/// its turn on and from its first one again, and the last line.
const DELIVERED: [(usize, u32, u32, u32); 7] = [
    (31, 0, 2, 1),
    (32, 2, 0, 0),
    (50, 2, 0, 1),
    (925, 0, 3, 66),
    (928, 0, 3, 69),
    (929, 0, 3, 58),
    (4_299, 4, 2, 202),
];

#[test]
fn the_seventh_input_is_generated(rt: HostRuntime) -> Result<(), Fail> {
    let input = generate(rt.alloc(), 7)?;
    let lists = input.script.lists.as_slice();
    assert_eq!(rt; (input.script.tasks, lists.len()), (5, 5));
    for list in lists {
        assert_eq!(rt; list.as_slice().len(), 52);
    }
    let first = lists[0].as_slice();
    assert_eq!(rt; first.len(), 52);
    let Statement::Store { at: 0, bytes } = &first[0] else {
        return Err(Fail::new(format_args!("no store")));
    };
    assert!(rt; bytes.as_slice().starts_with(&STORED));
    let Statement::Get {
        target: 2,
        from: Addr::Plain(0),
        to: 8192,
        len: 3023,
        ..
    } = &first[4]
    else {
        return Err(Fail::new(format_args!("another call")));
    };
    let lines = input.schedule.as_slice();
    assert_eq!(rt; lines.len(), 4300);
    for (number, from, to, entry) in DELIVERED {
        let Some(
            Line {
                lane,
                act: Act::Deliver { a, b, k },
            },
        ) = lines.get(number)
        else {
            return Err(Fail::new(format_args!("no delivery: {number}")));
        };
        assert_eq!(rt; (*lane, *a, *b, *k), (from, from, to, entry), "{number}");
    }
    Ok(())
}
