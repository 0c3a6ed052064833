//! Both formats are read, and the second is written.

use chew_outside::MemDisk;
use chew_slot_samples::{
    Learnt, digest_slot, disk_of, holds, patched, plain_slot, recovers_to, save,
};
use chew_slots::recover;
use std::alloc::Global;
use std::process::Abort;
use std::test::Fail;

/// The SHA-256 of bytes 1 to 126 of the slot of the second learn, which `sha256sum` told.
const SECOND_DIGEST: [u8; 32] = [
    0x9e, 0xc7, 0xff, 0x68, 0x32, 0xba, 0x1f, 0x61, 0x5a, 0x69, 0x66, 0x17, 0xe6, 0xf8, 0x4b, 0x9f,
    0xc9, 0xa1, 0xa1, 0x45, 0x6b, 0x90, 0xc1, 0xcd, 0x8b, 0xc2, 0x5a, 0xed, 0x72, 0x61, 0x95, 0x35,
];

// The slot of the second learn, field by field where it differs from that of the first: number 2, life 2, the frequency
// 9319 at time 1, and the digest.
fn second_slot(alloc: Global) -> Result<Vec<u8>, Fail> {
    let slot = digest_slot(alloc)?;
    let slot = patched(alloc, slot.as_slice(), 9, &[2])?;
    let slot = patched(alloc, slot.as_slice(), 17, &[2])?;
    let slot = patched(alloc, slot.as_slice(), 101, &[0x67])?;
    let slot = patched(alloc, slot.as_slice(), 113, &[1])?;
    Ok(patched(alloc, slot.as_slice(), 127, &SECOND_DIGEST)?)
}

// Whether these slots recover to a map, and stay as they are.
fn reads_as(rt: &impl Abort, alloc: Global, zero: &[u8], one: &[u8], learnt: Learnt) -> bool {
    let mut disk = disk_of(alloc, zero, one).expect(rt, "memory");
    let is_read = recovers_to(alloc, &mut disk, learnt).expect(rt, "memory");
    is_read && holds(alloc, &mut disk, zero, one).expect(rt, "the slots")
}

// The disk with these slots after a map was saved.
fn saved(alloc: Global, zero: &[u8], one: &[u8], learnt: Learnt) -> Result<MemDisk, Fail> {
    let mut disk = disk_of(alloc, zero, one)?;
    save_over(alloc, &mut disk, learnt)?;
    Ok(disk)
}

// Saves a map over what a disk recovers to.
fn save_over(alloc: Global, disk: &mut MemDisk, learnt: Learnt) -> Result<(), Fail> {
    let mut found = recover(alloc, disk)?;
    Ok(save(alloc, &mut found.keep, disk, learnt)?)
}

// A slot with ten bytes behind it.
fn longer(alloc: Global, slot: &[u8]) -> Result<Vec<u8>, Fail> {
    let mut longer = Vec::from_slice(alloc, slot)?;
    longer.extend_from_slice(&[0xFF; 10])?;
    Ok(longer)
}

#[test]
fn the_first_format_is_read(rt: HostRuntime) -> Result<(), Fail> {
    let alloc = rt.alloc();
    let slot = plain_slot(alloc)?;
    assert!(rt;
        reads_as(&rt, alloc, &slot, &[], Learnt::Again(0)),
        "slot 0"
    );
    assert!(rt;
        reads_as(&rt, alloc, &[], &slot, Learnt::Again(0)),
        "slot 1"
    );
    let longer = longer(alloc, &slot)?;
    assert!(rt;
        reads_as(&rt, alloc, &longer, &[], Learnt::Again(0)),
        "bytes behind"
    );
    Ok(())
}

#[test]
fn the_second_format_is_read(rt: HostRuntime) -> Result<(), Fail> {
    let alloc = rt.alloc();
    let slot = digest_slot(alloc)?;
    assert!(rt;
        reads_as(&rt, alloc, &slot, &[], Learnt::Again(0)),
        "slot 0"
    );
    assert!(rt;
        reads_as(&rt, alloc, &[], &slot, Learnt::Again(0)),
        "slot 1"
    );
    let longer = longer(alloc, &slot)?;
    assert!(rt;
        reads_as(&rt, alloc, &[], &longer, Learnt::Again(0)),
        "bytes behind"
    );
    Ok(())
}

#[test]
fn the_second_format_is_written(rt: HostRuntime) -> Result<(), Fail> {
    let alloc = rt.alloc();
    let slot = digest_slot(alloc)?;
    let mut disk = saved(alloc, &[], &[], Learnt::Again(0))?;
    assert!(rt; holds(alloc, &mut disk, &slot, &[]).expect(&rt, "the slots"));
    Ok(())
}

#[test]
fn an_old_slot_stays_and_the_next_one_has_the_second_format(rt: HostRuntime) -> Result<(), Fail> {
    let alloc = rt.alloc();
    let old = plain_slot(alloc)?;
    let new = second_slot(alloc)?;
    let mut disk = saved(alloc, &old, &[], Learnt::Again(1))?;
    assert!(rt;
        holds(alloc, &mut disk, &old, &new).expect(&rt, "the slots"),
        "bytes"
    );
    assert!(rt;
        recovers_to(alloc, &mut disk, Learnt::Again(1)).expect(&rt, "memory"),
        "map"
    );
    Ok(())
}

#[test]
fn closed_slots_are_the_empty_map(rt: HostRuntime) -> Result<(), Fail> {
    let alloc = rt.alloc();
    assert!(rt; reads_as(&rt, alloc, &[], &[], Learnt::Nothing), "no bytes");
    assert!(rt;
        reads_as(&rt, alloc, &[0], &[0], Learnt::Nothing),
        "gates alone"
    );
    assert!(rt;
        reads_as(&rt, alloc, &[0; 41], &[0; 41], Learnt::Nothing),
        "shut gates"
    );
    assert!(rt;
        reads_as(&rt, alloc, &[0xA5; 32], &[0xA5; 32], Learnt::Nothing),
        "32 bytes"
    );
    Ok(())
}

// A slot that ends before its 33rd byte holds nothing.
#[test]
fn a_slot_without_all_fields_is_closed(rt: HostRuntime) -> Result<(), Fail> {
    let alloc = rt.alloc();
    let slot = plain_slot(alloc)?;
    for n in 0..33usize {
        assert!(rt;
            reads_as(&rt, alloc, &slot[..n], &[], Learnt::Nothing),
            "{n}"
        );
    }
    Ok(())
}
