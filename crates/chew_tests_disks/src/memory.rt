//! What a disk in memory reads, and what a crash leaves of it.

use chew_outside::{Disk, Failed, Fails, MemDisk};
use chew_slot_samples::{bytes_of, disk_of, failing};
use chew_syllable::NoMemory;
use std::alloc::Global;
use std::process::Abort;

/// How many crashes are picked.
const PICKS: u64 = 200;

// Slot 0 of what a crash leaves.
fn left(rt: &impl Abort, alloc: Global, disk: &MemDisk, pick: u64) -> Vec<u8> {
    let mut image = disk.crashed(pick).expect(rt, "what a crash leaves");
    bytes_of(alloc, &mut image, 0).expect(rt, "its slot 0")
}

// Whether each crash leaves a list of slot 0 from the shortest length to the longest, with this front and this back.
fn leaves(
    rt: &impl Abort,
    alloc: Global,
    disk: &MemDisk,
    lens: (usize, usize),
    front: &[u8],
    back: &[u8],
) -> bool {
    for pick in 0..PICKS {
        if !fits(&left(rt, alloc, disk, pick), lens, front, back) {
            return false;
        }
    }
    true
}

// Whether a list has such a length, this front and this back.
fn fits(list: &[u8], lens: (usize, usize), front: &[u8], back: &[u8]) -> bool {
    lens.0 <= list.len() && list.len() <= lens.1 && list.starts_with(front) && list.ends_with(back)
}

// Whether the crashes of numbers 0, 1 and 2 leave these lists of slot 0.
fn leaves_first(rt: &impl Abort, alloc: Global, disk: &MemDisk, lists: [&[u8]; 3]) -> bool {
    let [kept, lost, marked] = lists;
    leaves_list(rt, alloc, disk, 0, kept)
        && leaves_list(rt, alloc, disk, 1, lost)
        && leaves_list(rt, alloc, disk, 2, marked)
}

// Whether the crash of this number leaves this list of slot 0.
fn leaves_list(rt: &impl Abort, alloc: Global, disk: &MemDisk, pick: u64, list: &[u8]) -> bool {
    left(rt, alloc, disk, pick).as_slice() == list
}

#[test]
fn a_write_is_read_and_may_be_lost_until_a_sync(rt: HostRuntime) -> Result<(), NoMemory> {
    let alloc = rt.alloc();
    let mut disk = disk_of(alloc, b"abc", &[])?;
    assert!(rt; disk.write_at(0, 1, b"XY!Z") == Ok(()), "the write");
    assert!(rt; disk.length(0) == Ok(5), "the length");
    assert!(rt;
        leaves_first(&rt, alloc, &disk, [b"aXY!Z", b"abc", b"a\xA5\xA5\xA5\xA5"]),
        "crashes"
    );
    assert!(rt; leaves(&rt, alloc, &disk, (3, 5), b"a", &[]), "all crashes");
    assert!(rt; disk.sync(0) == Ok(()), "the sync");
    assert!(rt;
        leaves(&rt, alloc, &disk, (5, 5), b"aXY!Z", &[]),
        "all crashes after it"
    );
    Ok(())
}

// Whether some crash leaves this byte at a place of slot 0, or a slot that ends before it.
fn may_leave(
    rt: &impl Abort,
    alloc: Global,
    disk: &MemDisk,
    place: usize,
    byte: Option<u8>,
) -> bool {
    for pick in 0..PICKS {
        if leaves_byte(rt, alloc, disk, pick, place) == byte {
            return true;
        }
    }
    false
}

// The byte that the crash of this number leaves at a place of slot 0.
fn leaves_byte(
    rt: &impl Abort,
    alloc: Global,
    disk: &MemDisk,
    pick: u64,
    place: usize,
) -> Option<u8> {
    left(rt, alloc, disk, pick).get(place).copied()
}

// Each length from the old one to the new one comes, and at each place that was written other bytes than those two.
#[test]
fn crashes_differ(rt: HostRuntime) -> Result<(), NoMemory> {
    let alloc = rt.alloc();
    let mut disk = disk_of(alloc, b"ab", &[])?;
    assert!(rt; disk.write_at(0, 1, b"XYZ") == Ok(()), "the write");
    let come = [
        (1usize, Some(b'b')),
        (1, Some(b'X')),
        (1, Some(0)),
        (1, Some(0xA5)),
        (2, None),
        (2, Some(b'Y')),
        (2, Some(0xA5)),
        (3, None),
        (3, Some(b'Z')),
        (3, Some(0xA5)),
    ];
    for (place, byte) in come {
        assert!(rt;
            may_leave(&rt, alloc, &disk, place, byte),
            "{place} {byte:?}"
        );
    }
    for (place, byte) in [(0usize, Some(b'X')), (1, None), (4, Some(0xA5))] {
        assert!(rt;
            !may_leave(&rt, alloc, &disk, place, byte),
            "{place} {byte:?}"
        );
    }
    Ok(())
}

#[test]
fn a_read_ends_at_the_slots_end(rt: HostRuntime) -> Result<(), NoMemory> {
    let mut disk = disk_of(rt.alloc(), b"aXY!Z", &[])?;
    let mut buffer = [b'.'; 8];
    assert!(rt; disk.read_at(0, 2, &mut buffer) == Ok(3), "the count");
    assert!(rt; buffer.as_slice() == b"Y!Z.....".as_slice(), "the bytes");
    assert!(rt; disk.length(1) == Ok(0), "the other slot");
    Ok(())
}

// What was not written of a gap is zero, and may be anything until a sync.
#[test]
fn a_write_past_the_end_leaves_a_gap(rt: HostRuntime) -> Result<(), NoMemory> {
    let alloc = rt.alloc();
    let mut disk = disk_of(alloc, b"aXY!Z", &[])?;
    assert!(rt; disk.write_at(0, 7, b"q") == Ok(()), "the write");
    assert!(rt;
        leaves_first(
            &rt,
            alloc,
            &disk,
            [b"aXY!Z\0\0q", b"aXY!Z", b"aXY!Z\0\0\xA5"]
        ),
        "crashes"
    );
    assert!(rt;
        leaves(&rt, alloc, &disk, (5, 8), b"aXY!Z", &[]),
        "all crashes"
    );
    Ok(())
}

// It is not read, but a crash may leave a part of it.
#[test]
fn a_failed_write_may_have_been_made_in_part(rt: HostRuntime) -> Result<(), NoMemory> {
    let alloc = rt.alloc();
    let fails = Fails {
        at: Vec::from_slice(alloc, &[1])?,
        from: None,
    };
    let mut disk = failing(alloc, b"abcdef", &[], fails)?;
    assert!(rt; disk.write_at(0, 2, b"XY") == Err(Failed), "the write");
    assert!(rt;
        leaves_first(&rt, alloc, &disk, [b"abcdef", b"abcdef", b"ab\xA5\xA5ef"]),
        "crashes"
    );
    assert!(rt;
        leaves(&rt, alloc, &disk, (6, 6), b"ab", b"ef"),
        "all crashes"
    );
    assert!(rt; disk.refused() == 0, "memory");
    Ok(())
}

// Nothing of it is done, and all calls from the fourth on fail.
#[test]
fn a_failed_sync_is_not_done(rt: HostRuntime) -> Result<(), NoMemory> {
    let alloc = rt.alloc();
    let fails = Fails {
        at: Vec::from_slice(alloc, &[2])?,
        from: Some(4),
    };
    let mut disk = failing(alloc, b"abc", &[], fails)?;
    assert!(rt; disk.write_at(0, 0, b"A") == Ok(()), "the write");
    assert!(rt; disk.sync(0) == Err(Failed), "the first sync");
    assert!(rt;
        leaves_list(&rt, alloc, &disk, 1, b"abc"),
        "the crash after it"
    );
    assert!(rt; disk.sync(0) == Ok(()), "the second sync");
    assert!(rt;
        leaves_list(&rt, alloc, &disk, 1, b"Abc"),
        "the crash after that"
    );
    assert!(rt; disk.length(0) == Err(Failed), "a later call");
    Ok(())
}
