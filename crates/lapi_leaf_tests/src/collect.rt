use lapi_collect::{AddressTable, Outstanding, Rounds, Unacknowledged};
use std::test::Fail;

#[test]
fn a_fence_waits_for_the_last_earlier_operation(rt: HostRuntime) -> Result<(), Fail> {
    let mut outstanding = Outstanding::new(rt.alloc(), 512)?;
    outstanding.begin(3);
    outstanding.begin(70);
    outstanding.begin(400);
    assert!(rt; outstanding.clear_before(3) && !outstanding.clear_before(4));
    outstanding.done(70);
    outstanding.done(3);
    assert!(rt; outstanding.clear_before(400) && !outstanding.clear_before(401));
    outstanding.done(400);
    assert!(rt; outstanding.clear_before(512));
    Ok(())
}

#[test]
fn the_last_acknowledged_number_is_told(rt: HostRuntime) -> Result<(), Fail> {
    let mut left = Unacknowledged::new(rt.alloc(), 512)?;
    left.begin(511, 2);
    left.begin(0, 1);
    assert!(rt; !left.acked(511));
    assert!(rt; left.acked(0));
    assert!(rt; left.acked(511));
    Ok(())
}

#[test]
fn a_round_is_complete_once_both_tasks_joined(rt: HostRuntime) -> Result<(), Fail> {
    let mut table = AddressTable::new(rt.alloc(), 2, 1)?;
    table.join(1, 0, 24);
    assert!(rt; !table.complete(0));
    assert_eq!(rt; table.entry(0, 1), None);
    table.join(0, 0, u32::MAX);
    assert!(rt; table.complete(0));
    assert_eq!(rt;
        (table.entry(0, 0), table.entry(0, 1)),
        (Some(u32::MAX), Some(24))
    );
    assert!(rt; Rounds::new(rt.alloc(), 0, 1)?.complete(0));
    Ok(())
}
