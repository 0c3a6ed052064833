//! Checkpoints in a row over a disk of which one call fails, or all from one on: whatever a crash leaves after each is one
//! of the two maps that may stand.

use chew_outside::{Fails, MemDisk};
use chew_slot_samples::{
    Learnt, SHUT_SLOT, SaveFault, digest_slot, failing, is_found, plain_slot, recovers_to, save,
};
use chew_slots::{Found, Keep, recover};
use chew_syllable::NoMemory;
use std::alloc::Global;
use std::process::Abort;

/// How many crashes are picked at each moment.
const PICKS: u64 = 40;

/// The calls of recovery and of two checkpoints: at most 4 and twice 6.
const CALLS: u64 = 16;

/// The map that counts, and the one that a failed checkpoint may bring up.
#[derive(Clone, Copy)]
struct Known {
    counts: Learnt,
    left: Option<Learnt>,
}

// What may be found after a checkpoint of this map was tried.
fn after(known: Known, answer: Result<(), SaveFault>, learnt: Learnt) -> Known {
    match answer {
        Ok(()) => Known {
            counts: learnt,
            left: None,
        },
        Err(SaveFault::Step(3 | 4)) => Known {
            counts: known.counts,
            left: None,
        },
        Err(SaveFault::Step(5 | 6)) => Known {
            counts: known.counts,
            left: Some(learnt),
        },
        Err(_) => known,
    }
}

// Whether the map that was found is one of the two. What was synced alone, the crash of number 1, is the one that counts.
fn is_known(rt: &impl Abort, alloc: Global, found: &Found, known: Known, pick: u64) -> bool {
    if is_found(alloc, found, known.counts).expect(rt, "memory") {
        return true;
    }
    match known.left {
        Some(learnt) => pick != 1 && is_found(alloc, found, learnt).expect(rt, "memory"),
        None => false,
    }
}

// Whether a crash leaves one of the two maps, over which the next checkpoint is written and can't be lost.
fn stands_after(rt: &impl Abort, alloc: Global, disk: &MemDisk, known: Known, pick: u64) -> bool {
    let mut image = crashed(rt, disk, pick);
    is_known_in(rt, alloc, &mut image, known, pick)
        && recovers_to(alloc, &mut crashed(rt, &image, 1), Learnt::Again(99)).expect(rt, "memory")
}

// What a crash leaves.
fn crashed(rt: &impl Abort, disk: &MemDisk, pick: u64) -> MemDisk {
    disk.crashed(pick).expect(rt, "memory")
}

// Whether a disk recovers to one of the two maps; then the next one is saved.
fn is_known_in(
    rt: &impl Abort,
    alloc: Global,
    image: &mut MemDisk,
    known: Known,
    pick: u64,
) -> bool {
    let mut found = recover(alloc, image).expect(rt, "a map");
    let is_known = is_known(rt, alloc, &found, known, pick);
    save(alloc, &mut found.keep, image, Learnt::Again(99)).expect(rt, "the next checkpoint");
    is_known
}

// The same of every crash that is picked.
fn stands(rt: &impl Abort, alloc: Global, disk: &MemDisk, known: Known) -> bool {
    for pick in 0..PICKS {
        if !stands_after(rt, alloc, disk, known, pick) {
            return false;
        }
    }
    true
}

// Whether recovery and two checkpoints in a row leave what they should, of which some calls fail.
fn survives(rt: &impl Abort, alloc: Global, disk: &mut MemDisk, at_first: Learnt) -> bool {
    let known = Known {
        counts: at_first,
        left: None,
    };
    match recover(alloc, disk) {
        Ok(mut found) => survives_from(rt, alloc, disk, &mut found.keep, known),
        Err(_) => stands(rt, alloc, disk, known),
    }
}

// The same of the two checkpoints.
fn survives_from(
    rt: &impl Abort,
    alloc: Global,
    disk: &mut MemDisk,
    keep: &mut Keep,
    known: Known,
) -> bool {
    let mut known = known;
    for times in [1u8, 2] {
        let learnt = Learnt::Again(times);
        let answer = save(alloc, keep, disk, learnt);
        known = after(known, answer, learnt);
        if !stands(rt, alloc, disk, known) {
            return false;
        }
    }
    true
}

// Whether these slots survive such failures.
fn survives_with(
    rt: &impl Abort,
    alloc: Global,
    slots: [&[u8]; 2],
    learnt: Learnt,
    fails: Fails,
) -> bool {
    let [zero, one] = slots;
    let mut disk = failing(alloc, zero, one, fails).expect(rt, "memory");
    survives(rt, alloc, &mut disk, learnt)
}

// The same where one call fails, and where all do from that one on, which is a stop before it.
fn survives_at(
    rt: &impl Abort,
    alloc: Global,
    slots: [&[u8]; 2],
    learnt: Learnt,
    call: u64,
) -> bool {
    let once = Fails {
        at: Vec::from_slice(alloc, &[call]).expect(rt, "memory"),
        from: None,
    };
    let for_good = Fails {
        at: Vec::new(alloc),
        from: Some(call),
    };
    survives_with(rt, alloc, slots, learnt, once)
        && survives_with(rt, alloc, slots, learnt, for_good)
}

// The first call of which these slots, which recover to this map, don't survive a failure.
fn wrong_call(rt: &impl Abort, alloc: Global, slots: [&[u8]; 2], learnt: Learnt) -> Option<u64> {
    for call in 1..=CALLS {
        if !survives_at(rt, alloc, slots, learnt, call) {
            return Some(call);
        }
    }
    None
}

#[test]
fn empty_slots_survive(rt: HostRuntime) {
    let slots = [[].as_slice(), [].as_slice()];
    assert_eq!(rt; wrong_call(&rt, rt.alloc(), slots, Learnt::Nothing), None);
}

#[test]
fn an_old_slot_beside_an_empty_one_survives(rt: HostRuntime) -> Result<(), NoMemory> {
    let slot = plain_slot(rt.alloc())?;
    let slots = [slot.as_slice(), [].as_slice()];
    assert_eq!(rt; wrong_call(&rt, rt.alloc(), slots, Learnt::Again(0)), None);
    Ok(())
}

#[test]
fn a_slot_beside_a_shut_one_survives(rt: HostRuntime) -> Result<(), NoMemory> {
    let slot = digest_slot(rt.alloc())?;
    let slots = [SHUT_SLOT.as_slice(), slot.as_slice()];
    assert_eq!(rt; wrong_call(&rt, rt.alloc(), slots, Learnt::Again(0)), None);
    Ok(())
}

#[test]
fn shut_slots_survive(rt: HostRuntime) {
    let slots = [SHUT_SLOT.as_slice(), SHUT_SLOT.as_slice()];
    assert_eq!(rt; wrong_call(&rt, rt.alloc(), slots, Learnt::Nothing), None);
}
