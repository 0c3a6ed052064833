//! The runs of a case.

use crate::case::{Case, Part};
use crate::failure::Failure;
use crate::given::outside_of;
use crate::turn::{Turn, turns_of};
use crate::wanted::{ends_well, leaves_well, map_after, same, slots_text, text_in};
use chew_outside::{FreeGate, Hold, HoldGate, MemDisk};
use chew_run_samples::{Outcome, Outside, run_words};
use std::alloc::Global;
use std::sync::Wait;
use std::thread::Threads;
use toml::Value;

/// The most holds of a gate, and how often whoever waits there looks again where nothing else is said.
const MOST_HOLDS: usize = 64;

const TURNS: u64 = 50_000_000;

/// The picks by which a crash is tried.
const PICKS: u64 = 8;

/// The words of a case.
fn words_of<'a>(alloc: Global, given: Part<'a>) -> Result<Vec<&'a str>, Failure> {
    if given.has("words") {
        return given.texts(alloc, "words");
    }
    let mut words = Vec::new(alloc);
    for word in ["run", "system", "script", "folder"] {
        words.push(word)?;
    }
    if given.has("settings") {
        words.push("settings")?;
    }
    Ok(words)
}

/// A number that a hold has under a key.
fn number_at(hold: Part, key: &str) -> Result<u32, Failure> {
    match hold.number(key)? {
        Some(number) => match u32::try_from(number) {
            Ok(number) => Ok(number),
            Err(_) => Err(Failure::OtherKind),
        },
        None => Err(Failure::NoCase),
    }
}

/// The activity `who` is held at its place `at` until the activity `until` has come to its place `place`.
fn hold_of(value: &Value) -> Result<Hold, Failure> {
    let Some(table) = value.as_table() else {
        return Err(Failure::OtherKind);
    };
    let hold = Part::of(table);
    hold.has_only(&["who", "at", "until", "place"])?;
    Ok(Hold {
        who: number_at(hold, "who")?,
        at: number_at(hold, "at")?,
        until_who: number_at(hold, "until")?,
        until_at: number_at(hold, "place")?,
    })
}

/// The gate of a case.
fn gate_of(alloc: Global, gate: Part) -> Result<HoldGate, Failure> {
    let mut holds = Vec::new(alloc);
    for hold in gate.list("holds")? {
        holds.push(hold_of(hold)?)?;
    }
    let turns = gate.number("turns")?.unwrap_or(TURNS).min(TURNS) as u32;
    if holds.len() > MOST_HOLDS {
        return Err(Failure::NoCase);
    }
    Ok(HoldGate::of(holds, turns))
}

/// Whether waits ran out, which they do where the case says so.
fn waits_end<R: Wait>(rt: &R, held: Part, gate: &HoldGate) -> Result<(), Failure> {
    let expires = held.truth("expires")?.unwrap_or(false);
    if gate.expired(rt) != expires {
        return Err(Failure::OtherWait);
    }
    Ok(())
}

/// Runs the program behind the gate of the case.
fn ran_held<R: Wait + Threads + Sync>(
    rt: &R,
    alloc: Global,
    case: Case,
    words: &[&str],
    outside: Outside,
) -> Result<Outcome, Failure> {
    let gate = gate_of(alloc, case.gate)?;
    let run = run_words(rt, alloc, words, outside, &gate);
    waits_end(rt, case.gate, &gate)?;
    Ok(run)
}

/// Runs the program, behind the gate of the case where it has one.
fn ran<R: Wait + Threads + Sync>(
    rt: &R,
    alloc: Global,
    case: Case,
    outside: Outside,
) -> Result<Outcome, Failure> {
    let words = words_of(alloc, case.given)?;
    if case.gate.is_none() {
        Ok(run_words(rt, alloc, words.as_slice(), outside, &FreeGate))
    } else {
        ran_held(rt, alloc, case, words.as_slice(), outside)
    }
}

/// The run printed what the case says of the next run, and left this map.
fn went_on(alloc: Global, left: Part, map: &str, run: &Outcome) -> Result<(), Failure> {
    let printed = left.text("again")?.unwrap_or("");
    same(
        alloc,
        "lines of the next run",
        printed,
        text_in(run.sink.bytes()),
    )?;
    let found = map_after(alloc, &run.disk, 0)?;
    same(alloc, "map of the next run", map, found.as_str())
}

/// The same script on what a crash left prints what the case says, and leaves this map.
fn goes_on<R: Wait + Threads + Sync>(
    rt: &R,
    alloc: Global,
    slots: Part,
    case: Case,
    disk: MemDisk,
    map: &str,
) -> Result<(), Failure> {
    let mut outside = outside_of(alloc, slots, case, &Turn::only(), None)?;
    outside.disk = disk;
    let run = ran(rt, alloc, case, outside)?;
    went_on(alloc, case.left, map, &run)
}

/// The place of a map among those of a case.
fn place_in(maps: &[&str], found: &str) -> Option<usize> {
    let mut place = 0usize;
    for map in maps {
        if *map == found {
            return Some(place);
        }
        place = place.wrapping_add(1);
    }
    None
}

/// One of the maps of the case is found after a crash by this pick, and the next run goes on from there.
fn survives<R: Wait + Threads + Sync>(
    rt: &R,
    alloc: Global,
    slots: Part,
    case: Case,
    disk: &MemDisk,
    pick: u64,
) -> Result<(), Failure> {
    let found = map_after(alloc, disk, pick)?;
    let maps = case.left.texts(alloc, "maps")?;
    let Some(place) = place_in(maps.as_slice(), found.as_str()) else {
        return same(
            alloc,
            "map after a crash",
            "one of the case",
            found.as_str(),
        );
    };
    let next = case.left.texts(alloc, "again_maps")?;
    match next.get(place) {
        Some(map) => goes_on(rt, alloc, slots, case, disk.crashed(pick)?, map),
        None => Ok(()),
    }
}

/// Whatever a crash leaves of the disk has one of the maps of the case, where it has some.
fn survive<R: Wait + Threads + Sync>(
    rt: &R,
    alloc: Global,
    slots: Part,
    case: Case,
    disk: &MemDisk,
) -> Result<(), Failure> {
    if !case.left.has("maps") {
        return Ok(());
    }
    for pick in 0..PICKS {
        survives(rt, alloc, slots, case, disk, pick)?;
    }
    Ok(())
}

/// What came of a run is what the case wants. The slots had this before, in hex digits.
fn is_as_wanted<R: Wait + Threads + Sync>(
    rt: &R,
    alloc: Global,
    slots: Part,
    case: Case,
    number: u64,
    held: &str,
    run: &Outcome,
) -> Result<(), Failure> {
    ends_well(alloc, case.wanted, number, run)?;
    leaves_well(alloc, slots, case.left, &run.disk)?;
    if case.left.truth("unchanged")? == Some(true) {
        let left = slots_text(alloc, &run.disk)?;
        same(alloc, "slots", held, left.as_str())?;
    }
    survive(rt, alloc, slots, case, &run.disk)
}

/// Makes the run of a turn, and compares what comes of it. What is left of the disk is given back.
fn make_turn<R: Wait + Threads + Sync>(
    rt: &R,
    alloc: Global,
    slots: Part,
    case: Case,
    turn: &Turn,
    before: Option<&MemDisk>,
) -> Result<MemDisk, Failure> {
    let outside = outside_of(alloc, slots, case, turn, before)?;
    let held = slots_text(alloc, &outside.disk)?;
    let run = ran(rt, alloc, case, outside)?;
    is_as_wanted(rt, alloc, slots, case, turn.number, held.as_str(), &run)?;
    Ok(run.disk)
}

/// Makes all runs of a case. What the last one left of its disk is given back.
pub(crate) fn make_case<R: Wait + Threads + Sync>(
    rt: &R,
    alloc: Global,
    slots: Part,
    case: Case,
    before: Option<&MemDisk>,
) -> Result<MemDisk, Failure> {
    let mut last = Err(Failure::NoCase);
    for turn in turns_of(alloc, case.each)?.as_slice() {
        last = Ok(make_turn(rt, alloc, slots, case, turn, before)?);
    }
    last
}
