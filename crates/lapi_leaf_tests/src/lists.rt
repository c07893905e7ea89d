use lapi_base::{
    Bytes, Choice, CompletionRule, CompletionRules, Entries, HeaderRule, HeaderRules, Place,
    WireEntry,
};
use std::test::Fail;

#[test]
fn lists_that_no_run_fills_yet_take_items(rt: HostRuntime) -> Result<(), Fail> {
    let alloc = rt.alloc();
    let mut bytes = Bytes::new(alloc);
    assert_eq!(rt; bytes.push(7), Ok(()));
    let mut entries = Entries::new(alloc);
    assert_eq!(rt; entries.push(WireEntry { to: 1, bytes }), Ok(()));
    let mut headers = HeaderRules::new(alloc);
    let rule = HeaderRule {
        place: Place::Nowhere,
        choice: Choice::Never,
    };
    assert_eq!(rt; headers.push(rule), Ok(()));
    let mut completions = CompletionRules::new(alloc);
    assert_eq!(rt; completions.push(CompletionRule::Sum), Ok(()));
    Ok(())
}
