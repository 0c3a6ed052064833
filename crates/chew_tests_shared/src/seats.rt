//! The most who share a dictionary: a keeper and sixteen contexts.

use chew_shared_samples::open_empty;
use std::test::Fail;

#[test]
fn a_keeper_and_sixteen_contexts_have_a_pass_each(rt: HostRuntime) -> Result<(), Fail> {
    let opened = open_empty(rt.alloc(), 200_000, 16)?;
    assert_eq!(rt; opened.keeper.who(), 0);
    assert_eq!(rt; opened.passes.len(), 16);
    let mut who = 0u32;
    for pass in opened.passes.iter() {
        who = who.saturating_add(1);
        assert_eq!(rt; pass.who(), who);
    }
    Ok(())
}
