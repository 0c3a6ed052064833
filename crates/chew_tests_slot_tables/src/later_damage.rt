//! A checkpoint of which a byte was changed later, by others, is refused with the place, and nothing is overwritten.

use chew_slot_samples::{digest_slot, disk_of, holds, patched, plain_slot, refusal};
use chew_slots::SlotFault;
use std::alloc::Global;
use std::test::Fail;

// Where the slot of 159 bytes is damaged once the highest bit of a byte was turned: at its magic, at its length where the
// image would reach past that, and where the digest begins.
fn place_of(at: usize) -> u64 {
    match at {
        1..=8 => 1,
        25..=32 => 159,
        _ => 127,
    }
}

// Whether these slots are refused with this fault, and stay as they are.
fn is_refused(alloc: Global, zero: &[u8], one: &[u8], fault: SlotFault) -> Result<bool, Fail> {
    let mut disk = disk_of(alloc, zero, one)?;
    let told = refusal(alloc, &mut disk);
    Ok(told == Some(fault) && holds(alloc, &mut disk, zero, one)?)
}

// Whether the slot with its byte changed is refused so as slot 0 and as slot 1, beside the other slot.
fn is_told(alloc: Global, changed: &[u8], other: &[u8], place: u64) -> Result<bool, Fail> {
    let first = SlotFault::Damaged { slot: 0, place };
    let second = SlotFault::Damaged { slot: 1, place };
    Ok(is_refused(alloc, changed, other, first)? && is_refused(alloc, other, changed, second)?)
}

#[test]
fn a_byte_changed_later_is_told(rt: HostRuntime) -> Result<(), Fail> {
    let alloc = rt.alloc();
    let slot = digest_slot(alloc)?;
    let other = plain_slot(alloc)?;
    for at in 1..159usize {
        let changed = patched(alloc, &slot, at, &[slot[at] ^ 0x80])?;
        assert!(rt; is_told(alloc, &changed, &other, place_of(at))?, "{at}");
    }
    Ok(())
}
