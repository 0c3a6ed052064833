//! What the keeper needs, before and after it installs.

use crate::keeping::{freeze, install, needs};
use crate::opened::{Two, are_by, close_two, open_two};
use crate::steps::{Sample, learn};
use chew_layers::Need;
use std::test::Fail;

#[test]
fn the_keeper_needs_what_was_changed_since_it_installed(rt: HostRuntime) -> Result<(), Fail> {
    let alloc = rt.alloc();
    let sample = Sample::of("測試")?;
    let Two {
        shared,
        keeper,
        first,
        second,
    } = open_two(alloc, 65_536)?;
    let keeper = needs(&rt, &shared, keeper, Need::Nothing);
    let first = learn(&rt, &shared, first, &sample, 0, (1, 0));
    let keeper = needs(&rt, &shared, keeper, Need::Fresh);
    let (keeper, _waits) = freeze(&rt, &shared, keeper, 1);
    let keeper = needs(&rt, &shared, keeper, Need::Waiting);
    let (keeper, snapshot) = freeze(&rt, &shared, keeper, 1);
    assert_eq!(rt; snapshot.life, 1);
    let keeper = install(&rt, alloc, &shared, keeper, &snapshot, 1);
    let keeper = needs(&rt, &shared, keeper, Need::Nothing);
    let layers = close_two(&rt, alloc, shared, keeper, first, second);
    assert!(rt; are_by(layers.journal(), &[1, 0, 0, 0]));
    Ok(())
}
