use lapi_counters::Counters;
use std::test::Fail;

/// A value that is waited for, whether the wait passes, and what it leaves.
const WAITS: [(u32, bool, u64); 4] = [(0, true, 5), (3, true, 2), (9, false, 2), (2, true, 0)];

#[test]
fn a_wait_takes_its_value(rt: HostRuntime) -> Result<(), Fail> {
    let mut counters = Counters::new(rt.alloc(), 2)?;
    counters.set(0, 5);
    for (value, passes, left) in WAITS {
        assert_eq!(rt; counters.try_wait(0, value), passes, "{value}");
        assert_eq!(rt; counters.get(0), left, "{value}");
    }
    counters.set(1, u32::MAX);
    counters.announce(1);
    assert_eq!(rt; counters.get(1), 4_294_967_296);
    Ok(())
}
