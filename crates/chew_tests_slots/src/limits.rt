//! The most rows of a slot.

use chew_slot_samples::disk_of;
use chew_slots::{Found, SlotFault, recover};
use std::alloc::Global;
use std::process::Abort;
use std::test::Fail;

// More numbers, in four bytes each, the low byte first.
fn push(list: &mut Vec<u8>, numbers: &[u32]) -> Result<(), Fail> {
    for number in numbers {
        list.extend_from_slice(&number.to_le_bytes())?;
    }
    Ok(())
}

// The character of four bytes that is so far from the first of them, U+10000.
fn character(row: u32) -> [u8; 4] {
    let code = row.saturating_add(0x1_0000);
    [
        (0xF0 + code / 0x4_0000 % 8) as u8,
        (0x80 + code / 0x1000 % 64) as u8,
        (0x80 + code / 64 % 64) as u8,
        (0x80 + code % 64) as u8,
    ]
}

// The image of so many phrases of one character under ㄕˋ, field by field.
fn image(alloc: Global, rows: u32) -> Result<Vec<u8>, Fail> {
    let mut image = Vec::from_slice(alloc, b"CHEWTRI1")?;
    push(&mut image, &[rows, 2, rows.saturating_mul(4)])?;
    // a node with one child, and that one, of the code 8708, with all rows
    push(&mut image, &[1 << 16, 1, 0, 0])?;
    push(&mut image, &[8708, 2, rows, 0])?;
    for row in 0..rows {
        push(&mut image, &[0, row.saturating_mul(4), 4, 0, 0])?;
    }
    for row in 0..rows {
        image.extend_from_slice(&character(row))?;
    }
    Ok(image)
}

// The slot in the first format, with number 1 and life 7.
fn slot(alloc: Global, rows: u32) -> Result<Vec<u8>, Fail> {
    let image = image(alloc, rows)?;
    let mut slot = Vec::from_slice(alloc, b"\xA5CHEWSLT1")?;
    for number in [1, 7, image.len() as u64] {
        slot.extend_from_slice(&number.to_le_bytes())?;
    }
    slot.extend_from_slice(image.as_slice())?;
    Ok(slot)
}

#[test]
fn a_slot_has_at_most_200000_rows(rt: HostRuntime) -> Result<(), Fail> {
    let alloc = rt.alloc();
    let most = found(&rt, alloc, &slot(alloc, 200_000)?).expect(&rt, "the most");
    assert!(rt; most.life == 7 && most.map.total() == 200_000, "the most");
    Ok(())
}

#[test]
fn a_slot_has_no_row_more(rt: HostRuntime) -> Result<(), Fail> {
    let alloc = rt.alloc();
    match found(&rt, alloc, &slot(alloc, 200_001)?) {
        Ok(_) => assert!(rt; false, "one row more is read"),
        Err(fault) => assert_eq!(rt; fault, SlotFault::Damaged { slot: 0, place: 41 }),
    }
    Ok(())
}

// What is found in a slot beside an empty one.
fn found(rt: &impl Abort, alloc: Global, slot: &[u8]) -> Result<Found, SlotFault> {
    let mut disk = disk_of(alloc, slot, &[]).expect(rt, "memory");
    recover(alloc, &mut disk)
}
