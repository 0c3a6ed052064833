//! Slots of both formats, cut at each byte and with each byte changed, are read as the second reading says.

ghost use Rattle.std.specs.Prelude.{◌<◌, length};

use crate::naive::{Reading, read};
use chew_slot_samples::{digest_slot, disk_of, holds, plain_slot};
use chew_slots::{Found, SlotFault, recover};
use std::alloc::Global;
use std::test::Fail;

/// The bits of a byte that are turned.
const TURNS: [u8; 3] = [1, 0x80, 0xFF];

fn is_answer(reading: &Reading, slot: u8, answer: &Result<Found, SlotFault>) -> bool {
    match (reading, answer) {
        (Reading::Shut, Ok(found)) => {
            found.life == 0 && found.keep.seq() == 0 && found.map.total() == 0
        }
        (Reading::Open { seq, life, image }, Ok(found)) => {
            found.life == *life && found.keep.seq() == *seq && found.map.bytes() == image.as_slice()
        }
        (Reading::Faulty { place }, Err(fault)) => {
            *fault
                == SlotFault::Damaged {
                    slot,
                    place: *place,
                }
        }
        _ => false,
    }
}

// Whether these slots, of which the other one is empty, are recovered so, and stay as they are.
fn reads_as(
    alloc: Global,
    zero: &[u8],
    one: &[u8],
    slot: u8,
    reading: &Reading,
) -> Result<bool, Fail> {
    let mut disk = disk_of(alloc, zero, one)?;
    let answer = recover(alloc, &mut disk);
    Ok(is_answer(reading, slot, &answer) && holds(alloc, &mut disk, zero, one)?)
}

// Whether bytes are recovered as the second reading says, as slot 0 and as slot 1.
fn agrees(alloc: Global, bytes: &[u8]) -> Result<bool, Fail> {
    let reading = read(alloc, bytes)?;
    Ok(reads_as(alloc, bytes, &[], 0, &reading)? && reads_as(alloc, &[], bytes, 1, &reading)?)
}

// The first length to which a slot can't be cut.
fn wrong_cut(alloc: Global, slot: &[u8]) -> Result<Option<usize>, Fail> {
    for len in 0..slot.len() {
        if !agrees(alloc, &slot[..len])? {
            return Ok(Some(len));
        }
    }
    Ok(None)
}

// Whether a slot agrees with one byte changed in each way.
fn agrees_changed(alloc: Global, slot: &[u8], place: usize) -> Result<bool, Fail>
    requires { place < length slot.now }
{
    for turn in TURNS {
        let mut changed = Vec::from_slice(alloc, slot)?;
        changed[place] ^= turn;
        if !agrees(alloc, &changed)? {
            return Ok(false);
        }
    }
    Ok(true)
}

// The first byte that can't be changed.
fn wrong_change(alloc: Global, slot: &[u8]) -> Result<Option<usize>, Fail> {
    for place in 0..slot.len() {
        if !agrees_changed(alloc, slot, place)? {
            return Ok(Some(place));
        }
    }
    Ok(None)
}

#[test]
fn a_cut_slot_is_read_as_it_should(rt: HostRuntime) -> Result<(), Fail> {
    let alloc = rt.alloc();
    let plain = wrong_cut(alloc, &plain_slot(alloc)?)?;
    let digest = wrong_cut(alloc, &digest_slot(alloc)?)?;
    assert!(rt; plain == None, "the first format");
    assert!(rt; digest == None, "the second format");
    Ok(())
}

#[test]
fn a_changed_slot_is_read_as_it_should(rt: HostRuntime) -> Result<(), Fail> {
    let alloc = rt.alloc();
    let plain = wrong_change(alloc, &plain_slot(alloc)?)?;
    let digest = wrong_change(alloc, &digest_slot(alloc)?)?;
    assert!(rt; plain == None, "the first format");
    assert!(rt; digest == None, "the second format");
    Ok(())
}
