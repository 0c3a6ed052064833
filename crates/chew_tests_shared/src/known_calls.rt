//! Two contexts and a keeper with one pair, call by call.

use crate::keeping::{freeze, install};
use crate::looks::Place;
use crate::opened::{Two, are_by, close_two, open_two};
use crate::steps::{Sample, find, find_nothing, forget, learn};
use chew_buffer::{Buffer, Mark};
use chew_layers::{Layers, Need};
use std::alloc::Global;
use std::process::Abort;
use std::sync::Wait;
use std::test::Fail;
use std::thread::Threads;

/// Whether a layer has one mark, which is a grave.
fn is_one_grave(layer: &Buffer) -> bool {
    if layer.len() != 1 {
        return false;
    }
    for marked in layer.marks() {
        if !matches!(marked.mark, Mark::Grave) {
            return false;
        }
    }
    true
}

/// What is left: seven entries, a base of one row, nothing that waits, and one grave.
fn check_layers(rt: &impl Abort, layers: &mut Layers) -> Result<(), Fail> {
    assert!(rt; are_by(layers.journal(), &[1, 2, 0, 1, 1, 0, 2]));
    assert!(rt; layers.need() == Need::Fresh);
    let snapshot = layers.freeze(0)?;
    assert_eq!(rt; snapshot.upto, 7);
    assert_eq!(rt; snapshot.base.total(), 1);
    assert!(rt; is_one_grave(&snapshot.frozen));
    Ok(())
}

/// 1 learns 測試, the two meet and 2 finds it; it is frozen; 1 forgets it, so that neither finds it, also once it is installed.
fn share<R: Abort + Threads + Wait + Sync>(
    rt: &R,
    alloc: Global,
    place: Place,
    sample: &Sample,
) -> Result<(), Fail> {
    let Two {
        shared,
        keeper,
        first,
        second,
    } = open_two(alloc, 65_536)?;
    let first = learn(rt, &shared, first, sample, 9318, (9318, 0));
    let (first, second) = shared.meet(first, second);
    let second = find(rt, place, &shared, second, sample, (9318, false));
    let (keeper, snapshot) = freeze(rt, &shared, keeper, 2);
    let first = forget(rt, &shared, first, sample);
    let first = find_nothing(rt, Place::Here, &shared, first, sample);
    let keeper = install(rt, alloc, &shared, keeper, &snapshot, 1);
    let second = find_nothing(rt, place, &shared, second, sample);
    let mut layers = close_two(rt, alloc, shared, keeper, first, second);
    check_layers(rt, &mut layers)
}

#[test]
fn two_contexts_and_a_keeper_share_one_history(rt: HostRuntime) -> Result<(), Fail> {
    share(&rt, rt.alloc(), Place::Here, &Sample::of("測試")?)
}

#[test]
fn the_history_is_the_same_with_looks_in_threads(rt: HostRuntime) -> Result<(), Fail> {
    share(&rt, rt.alloc(), Place::Apart, &Sample::of("測試")?)
}
