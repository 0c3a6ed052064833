//! What a checkpoint that is stopped at each of its calls answers, and what a crash leaves of it.

use chew_outside::{Fails, MemDisk};
use chew_slot_samples::{
    Learnt, SHUT_SLOT, SaveFault, bytes_of, failing, is_found, plain_slot, save,
};
use chew_slots::{Found, recover};
use std::alloc::Global;
use std::process::Abort;

/// How many crashes are picked.
const PICKS: u64 = 200;

/// The calls that recovery makes of one slot beside an empty one.
const RECOVERY: u64 = 3;

/// Which maps crashes leave: that of the first learn, that of the second, and any other or a refusal.
#[derive(Clone, Copy, Debug, PartialEq, Eq)]
struct Seen {
    old: bool,
    new: bool,
    other: bool,
}

const OLD: Seen = Seen {
    old: true,
    new: false,
    other: false,
};

const NEW: Seen = Seen {
    old: false,
    new: true,
    other: false,
};

const EITHER: Seen = Seen {
    old: true,
    new: true,
    other: false,
};

// What was seen, and what one more crash leaves.
fn seen_too(rt: &impl Abort, alloc: Global, seen: Seen, disk: &MemDisk, pick: u64) -> Seen {
    let mut image = disk.crashed(pick).expect(rt, "memory");
    match recover(alloc, &mut image) {
        Ok(found) => with_map(rt, alloc, seen, &found),
        Err(_) => Seen {
            other: true,
            ..seen
        },
    }
}

// What was seen, and this map.
fn with_map(rt: &impl Abort, alloc: Global, seen: Seen, found: &Found) -> Seen {
    let is_old = is_found(alloc, found, Learnt::Again(0)).expect(rt, "memory");
    let is_new = is_found(alloc, found, Learnt::Again(1)).expect(rt, "memory");
    Seen {
        old: seen.old || is_old,
        new: seen.new || is_new,
        other: seen.other || !is_old && !is_new,
    }
}

// What many crashes leave.
fn seen_of(rt: &impl Abort, alloc: Global, disk: &MemDisk) -> Seen {
    let mut seen = Seen {
        old: false,
        new: false,
        other: false,
    };
    for pick in 0..PICKS {
        seen = seen_too(rt, alloc, seen, disk, pick);
    }
    seen
}

// The old map in slot 0, and a checkpoint of the new one over a disk that is stopped at a call: what it answers, and what
// crashes leave.
fn stopped(rt: &impl Abort, alloc: Global, call: u64) -> (Result<(), SaveFault>, Seen) {
    let fails = Fails {
        at: Vec::new(alloc),
        from: Some(call.saturating_add(RECOVERY)),
    };
    let mut disk = old_with(rt, alloc, fails);
    let answer = recovered_and_saved(rt, alloc, &mut disk, Learnt::Again(1));
    (answer, seen_of(rt, alloc, &disk))
}

// A disk with the old map in slot 0, of which some calls fail.
fn old_with(rt: &impl Abort, alloc: Global, fails: Fails) -> MemDisk {
    let slot = plain_slot(alloc).expect(rt, "memory");
    failing(alloc, &slot, &[], fails).expect(rt, "memory")
}

// What a checkpoint answers after recovery.
fn recovered_and_saved(
    rt: &impl Abort,
    alloc: Global,
    disk: &mut MemDisk,
    learnt: Learnt,
) -> Result<(), SaveFault> {
    let mut found = recover(alloc, disk).expect(rt, "a map");
    save(alloc, &mut found.keep, disk, learnt)
}

// What two of them answer.
fn saved_twice(
    rt: &impl Abort,
    alloc: Global,
    disk: &mut MemDisk,
    learnt: [Learnt; 2],
) -> [Result<(), SaveFault>; 2] {
    let [one, other] = learnt;
    let mut found = recover(alloc, disk).expect(rt, "a map");
    let first = save(alloc, &mut found.keep, disk, one);
    let second = save(alloc, &mut found.keep, disk, other);
    [first, second]
}

#[test]
fn a_stop_before_the_gate_is_lifted(rt: HostRuntime) {
    for call in [1u8, 2, 3, 4] {
        let (answer, seen) = stopped(&rt, rt.alloc(), u64::from(call));
        assert!(rt; answer == Err(SaveFault::Step(call)), "{call}");
        assert!(rt; seen == OLD, "{call}");
    }
}

#[test]
fn a_stop_while_the_gate_is_lifted(rt: HostRuntime) {
    for call in [5u8, 6] {
        let (answer, seen) = stopped(&rt, rt.alloc(), u64::from(call));
        assert!(rt; answer == Err(SaveFault::Step(call)), "{call}");
        assert!(rt; seen == EITHER, "{call}");
    }
}

#[test]
fn no_stop(rt: HostRuntime) {
    let (answer, seen) = stopped(&rt, rt.alloc(), 7);
    assert!(rt; answer == Ok(()), "the answer");
    assert!(rt; seen == NEW, "the maps");
}

// A disk with the old map in slot 0, whose last sync of the first checkpoint fails, and which is stopped at a call of the
// next one.
fn failing_after(rt: &impl Abort, alloc: Global, call: u64) -> MemDisk {
    let fails = Fails {
        at: Vec::from_slice(alloc, &[9]).expect(rt, "memory"),
        from: Some(call.saturating_add(9)),
    };
    old_with(rt, alloc, fails)
}

// The new map twice over such a disk: what the two checkpoints answer, and what crashes leave.
fn written_again(
    rt: &impl Abort,
    alloc: Global,
    disk: &mut MemDisk,
) -> ([Result<(), SaveFault>; 2], Seen) {
    let answers = saved_twice(rt, alloc, disk, [Learnt::Again(1), Learnt::Again(1)]);
    (answers, seen_of(rt, alloc, disk))
}

// Whichever call the next checkpoint is stopped at, no other map is left.
#[test]
fn a_failed_checkpoint_is_written_again(rt: HostRuntime) {
    let alloc = rt.alloc();
    for call in [1u8, 2, 3, 4, 5, 6] {
        let mut disk = failing_after(&rt, alloc, u64::from(call));
        let ([first, second], seen) = written_again(&rt, alloc, &mut disk);
        assert!(rt; first == Err(SaveFault::Step(6)), "{call}");
        assert!(rt; second == Err(SaveFault::Step(call)), "{call}");
        assert!(rt; !seen.other, "{call}");
    }
}

// It takes the same slot and the same number.
#[test]
fn the_same_number_is_written_again(rt: HostRuntime) {
    let alloc = rt.alloc();
    let mut disk = failing_after(&rt, alloc, 7);
    let ([first, second], seen) = written_again(&rt, alloc, &mut disk);
    assert!(rt; first == Err(SaveFault::Step(6)), "the first");
    assert!(rt; second == Ok(()), "the second");
    assert!(rt; seen == NEW, "the maps");
    assert!(rt;
        has_number(&rt, alloc, &disk, &[2, 0, 0, 0, 0, 0, 0, 0]),
        "the number"
    );
}

// Whether slot 1 has this number after the crash of number 1.
fn has_number(rt: &impl Abort, alloc: Global, disk: &MemDisk, number: &[u8]) -> bool {
    let mut image = disk.crashed(1).expect(rt, "memory");
    let slot = bytes_of(alloc, &mut image, 1).expect(rt, "the slot");
    slot.get(9..17) == Some(number)
}

// What two checkpoints answer over shut slots, of which one call fails. Recovery makes four calls.
fn two_checkpoints(rt: &impl Abort, alloc: Global, call: u64) -> [Result<(), SaveFault>; 2] {
    let fails = Fails {
        at: Vec::from_slice(alloc, &[call]).expect(rt, "memory"),
        from: None,
    };
    let mut disk = failing(alloc, &SHUT_SLOT, &SHUT_SLOT, fails).expect(rt, "memory");
    saved_twice(rt, alloc, &mut disk, [Learnt::Again(0), Learnt::Again(1)])
}

// Behind a gate that is surely shut a checkpoint begins by its body, and makes four calls.
#[test]
fn two_checkpoints_behind_shut_gates_make_four_calls_each(rt: HostRuntime) {
    let alloc = rt.alloc();
    let body = Err(SaveFault::Step(3));
    let gate = Err(SaveFault::Step(6));
    let [first, second] = two_checkpoints(&rt, alloc, 5);
    assert!(rt; first == body && second == Ok(()), "the first one's body");
    let [first, _] = two_checkpoints(&rt, alloc, 8);
    assert!(rt; first == gate, "the first one's last sync");
    let [first, second] = two_checkpoints(&rt, alloc, 9);
    assert!(rt; first == Ok(()) && second == body, "the second one's body");
    let [first, second] = two_checkpoints(&rt, alloc, 12);
    assert!(rt;
        first == Ok(()) && second == gate,
        "the second one's last sync"
    );
    let [first, second] = two_checkpoints(&rt, alloc, 13);
    assert!(rt; first == Ok(()) && second == Ok(()), "no call more");
}
