//! Whether what came of a run is what the case wants.

ghost use Rattle.std.specs.Prelude.{◌<◌};

use crate::case::{Part, number_of, text_of};
use crate::failure::Failure;
use crate::given::slot_named;
use crate::texts::{filled, frequencies_text, lines_text, map_text, numbers_text, rounds_text};
use chew_outside::MemDisk;
use chew_run_samples::{Outcome, calls_text, found_after, own_calls_text};
use chew_script::append_entry;
use chew_slot_samples::bytes_of;
use std::alloc::Global;

/// Both are the same.
pub(crate) fn same(
    alloc: Global,
    what: &'static str,
    wanted: &str,
    found: &str,
) -> Result<(), Failure> {
    if wanted == found {
        return Ok(());
    }
    Err(Failure::Other {
        what,
        wanted: String::from_str(alloc, wanted)?,
        found: String::from_str(alloc, found)?,
    })
}

/// Both numbers are the same.
fn same_number(alloc: Global, what: &'static str, wanted: u64, found: u64) -> Result<(), Failure> {
    let wanted = format!(in alloc; "{wanted}")?;
    let found = format!(in alloc; "{found}")?;
    same(alloc, what, wanted.as_str(), found.as_str())
}

/// The bytes as a text; other bytes than a text's are told as none.
pub(crate) fn text_in(bytes: &[u8]) -> &str {
    str::from_utf8(bytes).unwrap_or("no text")
}

/// What the run printed, how it ended, and how many keys of each context were handled.
fn ended_so(alloc: Global, wanted: Part, number: u64, run: &Outcome) -> Result<(), Failure> {
    let journal = run.done.journal.as_slice();
    let Some(printed) = wanted.text("printed")? else {
        return Err(Failure::NoCase);
    };
    let printed = filled(alloc, printed, number, journal)?;
    same(alloc, "lines", printed.as_str(), text_in(run.sink.bytes()))?;
    let status = wanted.number("status")?.unwrap_or(0);
    same_number(alloc, "status", status, u64::from(run.done.status))?;
    let wanted = wanted.numbers(alloc, "handled")?;
    let wanted = numbers_text(alloc, wanted.as_slice())?;
    let mut handled = Vec::new(alloc);
    for count in run.done.handled.as_slice() {
        handled.push(u64::from(*count))?;
    }
    let handled = numbers_text(alloc, handled.as_slice())?;
    same(alloc, "numbers of keys", wanted.as_str(), handled.as_str())
}

/// The rounds that were made, and how many of them beside contexts.
fn made_rounds(alloc: Global, wanted: Part, number: u64, run: &Outcome) -> Result<(), Failure> {
    let lines = wanted.texts(alloc, "rounds")?;
    let lines = lines_text(alloc, lines.as_slice())?;
    let lines = filled(alloc, lines.as_str(), number, run.done.journal.as_slice())?;
    let made = rounds_text(alloc, run.done.rounds.as_slice())?;
    same(alloc, "rounds", lines.as_str(), made.as_str())?;
    let beside = wanted.number("beside")?.unwrap_or(0);
    same_number(
        alloc,
        "number of rounds beside contexts",
        beside,
        u64::from(run.done.last_from),
    )
}

/// The number that a key is in digits.
fn number_in(digits: &str) -> Result<u32, Failure> {
    match digits.parse::<u32>() {
        Ok(number) => Ok(number),
        Err(_) => Err(Failure::OtherKey),
    }
}

/// The calls of one number, which the case names in digits.
fn made_own_calls(
    alloc: Global,
    who: &str,
    calls: &str,
    number: u64,
    run: &Outcome,
) -> Result<(), Failure> {
    let journal = run.done.journal.as_slice();
    let calls = filled(alloc, calls, number, journal)?;
    let made = own_calls_text(alloc, journal, number_in(who)?)?;
    same(
        alloc,
        "calls of a number",
        calls.as_str(),
        text_in(made.as_slice()),
    )
}

/// The call at a place, which the case names in digits.
fn made_call_at(alloc: Global, at: &str, call: &str, run: &Outcome) -> Result<(), Failure> {
    let mut made = Vec::new(alloc);
    if let Some(entry) = run.done.journal.get(number_in(at)? as usize) {
        append_entry(&mut made, entry)?;
    }
    same(alloc, "call at a place", call, text_in(made.as_slice()))
}

/// So many of the calls are of a number, which the case names in digits.
fn made_so_many_of(alloc: Global, who: &str, wanted: u64, run: &Outcome) -> Result<(), Failure> {
    let who = number_in(who)?;
    let mut made = 0u64;
    for entry in run.done.journal.as_slice() {
        if entry.who == who {
            made = made.wrapping_add(1);
        }
    }
    same_number(alloc, "number of calls of a number", wanted, made)
}

/// The calls that were made, in their order.
fn made_calls(alloc: Global, wanted: Part, number: u64, run: &Outcome) -> Result<(), Failure> {
    let journal = run.done.journal.as_slice();
    if let Some(calls) = wanted.text("calls")? {
        let calls = filled(alloc, calls, number, journal)?;
        let made = calls_text(alloc, journal)?;
        same(alloc, "calls", calls.as_str(), text_in(made.as_slice()))?;
    }
    if let Some(count) = wanted.number("count")? {
        same_number(alloc, "number of calls", count, journal.len() as u64)?;
    }
    Ok(())
}

/// The calls of single numbers and at single places, and how many there are.
fn made_single_calls(
    alloc: Global,
    wanted: Part,
    number: u64,
    run: &Outcome,
) -> Result<(), Failure> {
    for (who, calls) in wanted.part("calls_of")?.pairs(alloc)? {
        made_own_calls(alloc, who, text_of(calls)?, number, run)?;
    }
    for (at, call) in wanted.part("calls_at")?.pairs(alloc)? {
        made_call_at(alloc, at, text_of(call)?, run)?;
    }
    for (who, count) in wanted.part("count_of")?.pairs(alloc)? {
        made_so_many_of(alloc, who, number_of(count)?, run)?;
    }
    Ok(())
}

/// The run ended as the case wants, with these rounds and calls.
pub(crate) fn ends_well(
    alloc: Global,
    wanted: Part,
    number: u64,
    run: &Outcome,
) -> Result<(), Failure> {
    ended_so(alloc, wanted, number, run)?;
    made_rounds(alloc, wanted, number, run)?;
    made_calls(alloc, wanted, number, run)?;
    made_single_calls(alloc, wanted, number, run)
}

/// The map in words that is found after a crash by this pick.
pub(crate) fn map_after(alloc: Global, disk: &MemDisk, pick: u64) -> Result<String, Failure> {
    let found = found_after(alloc, disk, pick)?;
    Ok(map_text(alloc, &found)?)
}

/// Both slots of a disk in hex digits, one a line.
pub(crate) fn slots_text(alloc: Global, disk: &MemDisk) -> Result<String, Failure> {
    let mut image = disk.crashed(0)?;
    let zero = hex::encode(alloc, bytes_of(alloc, &mut image, 0)?)?;
    let one = hex::encode(alloc, bytes_of(alloc, &mut image, 1)?)?;
    Ok(format!(in alloc; "{zero}\n{one}\n")?)
}

/// A slot of a disk has the bytes of the name that the case has for it, where it has one.
fn has_slot(
    alloc: Global,
    slots: Part,
    disk: &mut MemDisk,
    slot: u8,
    name: Option<&str>,
) -> Result<(), Failure>
    requires { slot < 2 }
{
    let Some(name) = name else {
        return Ok(());
    };
    let wanted = hex::encode(alloc, slot_named(alloc, slots, name)?)?;
    let held = hex::encode(alloc, bytes_of(alloc, disk, slot)?)?;
    same(alloc, "slot", wanted.as_str(), held.as_str())
}

/// The slots have the bytes that the case names.
fn has_slots(alloc: Global, slots: Part, left: Part, disk: &MemDisk) -> Result<(), Failure> {
    let mut image = disk.crashed(0)?;
    has_slot(alloc, slots, &mut image, 0, left.text("zero")?)?;
    has_slot(alloc, slots, &mut image, 1, left.text("one")?)
}

/// The maps are found that the case names.
fn has_maps(alloc: Global, left: Part, disk: &MemDisk) -> Result<(), Failure> {
    if let Some(map) = left.text("map")? {
        let found = map_after(alloc, disk, 0)?;
        same(alloc, "map", map, found.as_str())?;
    }
    if let Some(map) = left.text("frequencies")? {
        let found = frequencies_text(alloc, &found_after(alloc, disk, 0)?)?;
        same(alloc, "map", map, found.as_str())?;
    }
    let mut pick = 0u64;
    for map in left.texts(alloc, "by_pick")? {
        let found = map_after(alloc, disk, pick)?;
        same(alloc, "map after a crash", map, found.as_str())?;
        pick = pick.wrapping_add(1);
    }
    Ok(())
}

/// The disk has the slots and the maps that the case names.
pub(crate) fn leaves_well(
    alloc: Global,
    slots: Part,
    left: Part,
    disk: &MemDisk,
) -> Result<(), Failure> {
    has_slots(alloc, slots, left, disk)?;
    has_maps(alloc, left, disk)
}
