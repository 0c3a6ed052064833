//! A snapshot that is saved while the dictionary goes on.

use crate::steps::{Step, are_answered};
use chew_layer_samples::InLayers;
use chew_outside::MemDisk;
use chew_samples::{CE, SHI, syllable};
use chew_slot_samples::{Learnt, disk_of, is_found, save_map};
use chew_slots::recover;
use chew_trie_read::Trie;
use std::alloc::Global;
use std::process::Abort;
use std::test::Fail;

/// A disk of empty slots in which a map is saved.
pub(crate) fn disk_with(alloc: Global, map: &Trie, life: u64) -> Result<MemDisk, Fail> {
    let mut disk = disk_of(alloc, &[], &[])?;
    let mut found = recover(alloc, &mut disk)?;
    save_map(alloc, &mut found.keep, &mut disk, map, life)?;
    Ok(disk)
}

/// Once the snapshot that waits is saved in empty slots, they recover to this map, as checkpoint 1.
fn check_saved(
    rt: &impl Abort,
    alloc: Global,
    layers: &InLayers,
    wanted: Learnt,
) -> Result<(), Fail> {
    let (Some(life), Some(map)) = (layers.waiting_life(), layers.merged()?) else {
        return Err(Fail::new("nothing waits"));
    };
    let mut disk = disk_with(alloc, &map, life)?;
    let found = recover(alloc, &mut disk)?;
    assert!(rt; is_found(alloc, &found, wanted)?);
    assert_eq!(rt; found.keep.seq(), 1);
    Ok(())
}

/// 測試 is learnt once, frozen, forgotten, saved, and installed.
fn save_beside_calls(rt: &impl Abort, alloc: Global, layers: &mut InLayers) -> Result<(), Fail> {
    let key = [syllable(CE), syllable(SHI)];
    let before = [
        Step::Learns {
            key: &key,
            text: "測試",
            orig: 9318,
            freq: 9318,
            time: 0,
        },
        Step::Freezes(1),
        Step::Forgets(&key, "測試"),
        Step::Misses(&key),
    ];
    are_answered(rt, layers, &before)?;
    check_saved(rt, alloc, layers, Learnt::Again(0))?;
    are_answered(rt, layers, &[Step::Installs, Step::Misses(&key)])?;
    assert_eq!(rt; layers.calls(), 6);
    Ok(())
}

/// It is saved as it was learnt, and found no more.
#[test]
fn what_is_forgotten_after_a_freeze_is_saved_and_stays_forgotten(
    rt: HostRuntime,
) -> Result<(), Fail> {
    let mut layers = InLayers::empty(rt.alloc(), 0, 65_536)?;
    save_beside_calls(&rt, rt.alloc(), &mut layers)
}
