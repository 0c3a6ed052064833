//! Which of two slots counts, the last number, and calls that fail in recovery.

use chew_outside::Fails;
use chew_slot_samples::{
    Learnt, SaveFault, disk_of, failing, holds, patched, plain_slot, refusal, save,
};
use chew_slots::{SlotFault, recover};
use std::alloc::Global;
use std::process::Abort;
use std::test::Fail;

// The slot of one row with another number and another life, each below 256.
fn numbered(alloc: Global, seq: u8, life: u8) -> Result<Vec<u8>, Fail> {
    let slot = plain_slot(alloc)?;
    let slot = patched(alloc, slot.as_slice(), 9, &[seq])?;
    Ok(patched(alloc, slot.as_slice(), 17, &[life])?)
}

// The life that two slots recover to.
fn life_found(rt: &impl Abort, alloc: Global, zero: &[u8], one: &[u8]) -> u64 {
    let mut disk = disk_of(alloc, zero, one).expect(rt, "memory");
    recover(alloc, &mut disk).expect(rt, "a map").life
}

#[test]
fn the_greater_number_counts(rt: HostRuntime) -> Result<(), Fail> {
    let alloc = rt.alloc();
    let first = numbered(alloc, 1, 7)?;
    let other = numbered(alloc, 1, 8)?;
    let second = numbered(alloc, 2, 9)?;
    assert!(rt;
        life_found(&rt, alloc, &first, &other) == 7,
        "equal numbers"
    );
    assert!(rt;
        life_found(&rt, alloc, &other, &first) == 8,
        "equal numbers, turned"
    );
    assert!(rt;
        life_found(&rt, alloc, &first, &second) == 9,
        "slot 1 is newer"
    );
    assert!(rt;
        life_found(&rt, alloc, &second, &first) == 9,
        "slot 0 is newer"
    );
    Ok(())
}

#[test]
fn an_open_slot_counts_beside_a_shut_one(rt: HostRuntime) -> Result<(), Fail> {
    let alloc = rt.alloc();
    let slot = numbered(alloc, 1, 7)?;
    assert!(rt; life_found(&rt, alloc, &[], &slot) == 7, "an empty one");
    assert!(rt;
        life_found(&rt, alloc, &slot, &[0]) == 7,
        "a gate that is shut"
    );
    Ok(())
}

#[test]
fn the_last_number_is_spent(rt: HostRuntime) -> Result<(), Fail> {
    let alloc = rt.alloc();
    let slot = plain_slot(alloc)?;
    let last = patched(alloc, &slot, 9, &[0xFF; 8])?;
    let mut disk = disk_of(alloc, &last, &[])?;
    let mut found = recover(alloc, &mut disk).expect(&rt, "a map");
    assert!(rt; found.keep.spent() == Some(u64::MAX), "the number");
    let answer = save(alloc, &mut found.keep, &mut disk, Learnt::Again(1));
    assert!(rt; answer == Err(SaveFault::Spent), "the answer");
    assert!(rt; holds(alloc, &mut disk, &last, &[]).expect(&rt, "the slots"));
    Ok(())
}

// What two slots are refused for where one call of the disk fails.
fn refusal_at(
    rt: &impl Abort,
    alloc: Global,
    zero: &[u8],
    one: &[u8],
    call: u64,
) -> Option<SlotFault> {
    let fails = Fails {
        at: Vec::from_slice(alloc, &[call]).expect(rt, "memory"),
        from: None,
    };
    let mut disk = failing(alloc, zero, one, fails).expect(rt, "memory");
    refusal(alloc, &mut disk)
}

// Whether recovery makes so many calls, each of which ends it where it fails, and answers this otherwise.
fn makes(
    rt: &impl Abort,
    alloc: Global,
    zero: &[u8],
    one: &[u8],
    calls: u64,
    answer: Option<SlotFault>,
) -> bool {
    for call in 1..=calls {
        if refusal_at(rt, alloc, zero, one, call) != Some(SlotFault::DiskFault) {
            return false;
        }
    }
    refusal_at(rt, alloc, zero, one, calls.saturating_add(1)) == answer
}

// The length of each slot is asked, an empty slot isn't read, and slot 0 is treated wholly before slot 1.
#[test]
fn a_failed_call_ends_recovery(rt: HostRuntime) -> Result<(), Fail> {
    let alloc = rt.alloc();
    let slot = plain_slot(alloc)?;
    let broken = patched(alloc, &slot, 9, &[0])?;
    let damaged = Some(SlotFault::Damaged { slot: 0, place: 9 });
    assert!(rt; makes(&rt, alloc, &[], &[], 2, None), "both empty");
    assert!(rt; makes(&rt, alloc, &slot, &[], 3, None), "slot 1 empty");
    assert!(rt; makes(&rt, alloc, &[], &slot, 3, None), "slot 0 empty");
    assert!(rt; makes(&rt, alloc, &slot, &slot, 4, None), "both read");
    assert!(rt;
        makes(&rt, alloc, &broken, &slot, 2, damaged),
        "slot 0 refused"
    );
    Ok(())
}
