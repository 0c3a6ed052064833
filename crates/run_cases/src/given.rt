//! What a case gives to a run.

use crate::case::{Case, Part};
use crate::failure::Failure;
use crate::turn::{Turn, What};
use chew_outside::{Fails, MemDisk, MemSink, MemSource};
use chew_run_samples::Outside;
use chew_samples::FIVE_ROWS;
use chewing_cli::build_call;
use std::alloc::{AllocError, Global};

/// The most bytes that a read gives where nothing else is said.
const READ: u64 = 4096;

/// Where the image begins in a slot in the first format, which it ends.
const IMAGE_PLACE: usize = 33;

/// A slot by its name, which the file has in hex digits.
pub(crate) fn slot_named(alloc: Global, slots: Part, name: &str) -> Result<Vec<u8>, Failure> {
    let Some(digits) = slots.text(name)? else {
        return Err(Failure::NoSlot);
    };
    let digits = digits.replace(alloc, "\n", "")?;
    Ok(hex::decode(alloc, digits.as_str().as_bytes())?)
}

/// The slot that is named under a key, or the empty one.
fn slot_at(alloc: Global, slots: Part, given: Part, key: &str) -> Result<Vec<u8>, Failure> {
    match given.text(key)? {
        Some(name) => slot_named(alloc, slots, name),
        None => Ok(Vec::new(alloc)),
    }
}

/// The calls that fail of an object: those that the case names, and in the runs of each of its calls the one of the turn.
fn fails(alloc: Global, fails: Part, what: What, turn: &Turn) -> Result<Fails, Failure> {
    let calls = fails.part(what.object())?;
    calls.has_only(&["at", "from"])?;
    let mut at = calls.numbers(alloc, "at")?;
    let mut from = calls.number("from")?;
    if turn.is_of(what) {
        if turn.later {
            from = Some(turn.call());
        } else {
            at.push(turn.call())?;
        }
    }
    Ok(Fails { at, from })
}

/// So many of a byte, where the runs differ by this, and else the text.
fn text_or_filled(
    alloc: Global,
    text: &str,
    byte: u8,
    what: What,
    turn: &Turn,
) -> Result<Vec<u8>, AllocError> {
    if turn.is_of(what) {
        vec![in alloc; byte; turn.number as usize]
    } else {
        text.as_bytes().to_vec(alloc)
    }
}

/// The image of a text.
fn built(alloc: Global, text: &str) -> Result<Vec<u8>, Failure> {
    let text = text.as_bytes().to_vec(alloc)?;
    let mut source = MemSource::of(text, READ as usize, Fails::never(alloc));
    let mut sink = MemSink::of(alloc, Fails::never(alloc));
    if build_call(alloc, &mut source, &mut sink) != 0 {
        return Err(Failure::NoCase);
    }
    Ok(sink.bytes().to_vec(alloc)?)
}

/// The image that ends a slot.
fn image_in(alloc: Global, slot: &[u8]) -> Result<Vec<u8>, Failure> {
    match slot.get(IMAGE_PLACE..) {
        Some(image) => Ok(image.to_vec(alloc)?),
        None => Err(Failure::NoSlot),
    }
}

/// The system: an image, a text, or the five rows.
fn system_of(alloc: Global, slots: Part, given: Part, turn: &Turn) -> Result<Vec<u8>, Failure> {
    if given.has("image") {
        let slot = slot_at(alloc, slots, given, "image")?;
        return image_in(alloc, slot.as_slice());
    }
    let text = given.text("system")?.unwrap_or(FIVE_ROWS);
    if given.truth("built")? == Some(true) {
        return built(alloc, text);
    }
    Ok(text_or_filled(alloc, text, b' ', What::SystemLength, turn)?)
}

/// The slots that the case names, of which the first is cut where the runs differ by that.
fn named_slots(
    alloc: Global,
    slots: Part,
    given: Part,
    turn: &Turn,
) -> Result<[Vec<u8>; 2], Failure> {
    let mut zero = slot_at(alloc, slots, given, "zero")?;
    if turn.is_of(What::SlotLength) {
        zero.truncate(turn.number as usize);
    }
    let one = slot_at(alloc, slots, given, "one")?;
    Ok([zero, one])
}

/// The disk: what a crash left of that of the run before, or the slots that the case names, with these failing calls.
fn disk_of(
    alloc: Global,
    slots: Part,
    case: Case,
    turn: &Turn,
    before: Option<&MemDisk>,
) -> Result<MemDisk, Failure> {
    if let Some(pick) = case.given.number("crash")? {
        return match before {
            Some(disk) => Ok(disk.crashed(pick)?),
            None => Err(Failure::NoCase),
        };
    }
    let slots = named_slots(alloc, slots, case.given, turn)?;
    Ok(MemDisk::of(slots, fails(alloc, case.fails, What::DiskCall, turn)?))
}

/// A source of a text with the failing calls of an object. A read gives at most so many bytes.
fn source(
    alloc: Global,
    text: Vec<u8>,
    case: Case,
    what: What,
    turn: &Turn,
) -> Result<MemSource, Failure> {
    let cut = case.given.number("read")?.unwrap_or(READ).max(1);
    let fails = fails(alloc, case.fails, what, turn)?;
    Ok(MemSource::of(text, cut as usize, fails))
}

fn settings_of(alloc: Global, case: Case, turn: &Turn) -> Result<MemSource, Failure> {
    let text = case.given.text("settings")?.unwrap_or("");
    let text = text_or_filled(alloc, text, b' ', What::SettingsLength, turn)?;
    source(alloc, text, case, What::SettingsCall, turn)
}

fn script_of(alloc: Global, case: Case, turn: &Turn) -> Result<MemSource, Failure> {
    let text = case.given.text("script")?.unwrap_or("");
    let text = text_or_filled(alloc, text, b'#', What::ScriptLength, turn)?;
    source(alloc, text, case, What::ScriptCall, turn)
}

/// What the run of this turn reads and writes.
pub(crate) fn outside_of(
    alloc: Global,
    slots: Part,
    case: Case,
    turn: &Turn,
    before: Option<&MemDisk>,
) -> Result<Outside, Failure> {
    let settings = settings_of(alloc, case, turn)?;
    let system = system_of(alloc, slots, case.given, turn)?;
    let system = source(alloc, system, case, What::SystemCall, turn)?;
    let script = script_of(alloc, case, turn)?;
    let fails = fails(alloc, case.fails, What::SinkCall, turn)?;
    let disk = disk_of(alloc, slots, case, turn, before)?;
    Ok(Outside {
        settings,
        system,
        script,
        sink: MemSink::of(alloc, fails),
        disk,
    })
}
