//! Damage is told with its slot and its place.

use chew_slot_samples::{digest_slot, disk_of, patched, plain_slot, refusal};
use chew_slots::SlotFault;
use std::alloc::Global;
use std::process::Abort;
use std::test::Fail;

/// Other bytes from a place on, and the place where the slot is damaged then.
type Damage = (usize, &'static [u8], u64);

/// The magic, the number, the length of the image, and the image at its first byte and at its number of nodes.
const PLAIN_DAMAGES: [Damage; 5] = [
    (8, b"0", 1),
    (9, &[0], 9),
    (25, &[95], 127),
    (33, &[0], 33),
    (45, &[0], 45),
];

/// The magic, the number, the length of the image, the life, the last byte of the image and the last of the digest.
const DIGEST_DAMAGES: [Damage; 6] = [
    (8, b"3", 1),
    (9, &[0], 9),
    (25, &[0xFF; 8], 159),
    (17, &[2], 127),
    (126, &[0xA7], 127),
    (158, &[0xD3], 127),
];

// Whether a slot is refused at this place, as slot 0 and as slot 1, beside one that is whole.
fn is_refused(rt: &impl Abort, alloc: Global, slot: &[u8], place: u64) -> bool {
    let whole = plain_slot(alloc).expect(rt, "memory");
    let first = refusal_of(rt, alloc, slot, &whole);
    let second = refusal_of(rt, alloc, &whole, slot);
    first == Some(SlotFault::Damaged { slot: 0, place })
        && second == Some(SlotFault::Damaged { slot: 1, place })
}

// Why two slots are refused, if they are.
fn refusal_of(rt: &impl Abort, alloc: Global, zero: &[u8], one: &[u8]) -> Option<SlotFault> {
    let mut disk = disk_of(alloc, zero, one).expect(rt, "memory");
    refusal(alloc, &mut disk)
}

// The same of a slot with other bytes.
fn is_damaged(rt: &impl Abort, alloc: Global, slot: &[u8], damage: Damage) -> bool {
    let (at, others, place) = damage;
    let damaged = patched(alloc, slot, at, others).expect(rt, "memory");
    is_refused(rt, alloc, &damaged, place)
}

#[test]
fn damage_of_the_first_format_is_told(rt: HostRuntime) -> Result<(), Fail> {
    let alloc = rt.alloc();
    let slot = plain_slot(alloc)?;
    for damage in PLAIN_DAMAGES {
        assert!(rt; is_damaged(&rt, alloc, &slot, damage), "{}", damage.0);
    }
    Ok(())
}

#[test]
fn damage_of_the_second_format_is_told(rt: HostRuntime) -> Result<(), Fail> {
    let alloc = rt.alloc();
    let slot = digest_slot(alloc)?;
    for damage in DIGEST_DAMAGES {
        assert!(rt; is_damaged(&rt, alloc, &slot, damage), "{}", damage.0);
    }
    Ok(())
}

// Sixty bytes with an image of a hundred.
#[test]
fn an_image_that_reaches_past_a_short_slot(rt: HostRuntime) -> Result<(), Fail> {
    let alloc = rt.alloc();
    let mut slot = plain_slot(alloc)?;
    slot.truncate(60);
    assert!(rt; is_damaged(&rt, alloc, slot.as_slice(), (25, &[100], 60)));
    Ok(())
}

#[test]
fn a_cut_slot_is_damaged_at_its_length(rt: HostRuntime) -> Result<(), Fail> {
    let alloc = rt.alloc();
    let plain = plain_slot(alloc)?;
    for n in 33..127usize {
        assert!(rt; is_refused(&rt, alloc, &plain[..n], n as u64), "{n}");
    }
    let digest = digest_slot(alloc)?;
    for n in 33..159usize {
        assert!(rt; is_refused(&rt, alloc, &digest[..n], n as u64), "{n}");
    }
    Ok(())
}
