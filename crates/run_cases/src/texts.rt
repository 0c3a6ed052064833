//! What came of a run, in words.

use crate::failure::Failure;
use chew_checkpoint::Round;
use chew_plain::{Call, Entry};
use chew_slots::Found;
use std::alloc::{AllocError, Global};

/// Numbers, one a line.
pub(crate) fn numbers_text(alloc: Global, numbers: &[u64]) -> Result<String, AllocError> {
    let mut text = String::new(alloc);
    for number in numbers {
        let number = *number;
        text.push_str(&format!(in alloc; "{number}\n")?)?;
    }
    Ok(text)
}

/// What a round answered.
fn round_text(alloc: Global, round: &Round) -> Result<String, AllocError> {
    match round {
        Round::Saved(upto) => {
            let upto = *upto;
            format!(in alloc; "saved {upto}\n")
        }
        Round::DiskFault { step } => {
            let step = *step;
            format!(in alloc; "disk fault {step}\n")
        }
        Round::NoMemory => format!(in alloc; "no memory\n"),
        Round::SeqSpent { seq } => {
            let seq = *seq;
            format!(in alloc; "seq spent {seq}\n")
        }
    }
}

/// What the rounds answered, one a line.
pub(crate) fn rounds_text(alloc: Global, rounds: &[Round]) -> Result<String, AllocError> {
    let mut text = String::new(alloc);
    for round in rounds {
        text.push_str(&round_text(alloc, round)?)?;
    }
    Ok(text)
}

/// Lines, each ended.
pub(crate) fn lines_text(alloc: Global, lines: &[&str]) -> Result<String, AllocError> {
    let mut text = String::new(alloc);
    for line in lines {
        text.push_str(line)?;
        text.push('\n')?;
    }
    Ok(text)
}

/// A map in words: its life, and each row's phrase, frequency and time, in image order.
pub(crate) fn map_text(alloc: Global, found: &Found) -> Result<String, AllocError> {
    let life = found.life;
    let mut text = format!(in alloc; "life {life}\n")?;
    for (_key, row) in found.map.each() {
        let phrase = row.phrase;
        let freq = row.freq;
        let time = row.time;
        text.push_str(&format!(in alloc; "{phrase} {freq} at {time}\n")?)?;
    }
    Ok(text)
}

/// The same without the times.
pub(crate) fn frequencies_text(alloc: Global, found: &Found) -> Result<String, AllocError> {
    let life = found.life;
    let mut text = format!(in alloc; "life {life}\n")?;
    for (_key, row) in found.map.each() {
        let phrase = row.phrase;
        let freq = row.freq;
        text.push_str(&format!(in alloc; "{phrase} {freq}\n")?)?;
    }
    Ok(text)
}

/// How many calls were made before the freezes, of which the first is freeze 1.
fn freezes(alloc: Global, journal: &[Entry]) -> Result<Vec<u64>, AllocError> {
    let mut before = Vec::new(alloc);
    let mut count = 0u64;
    for entry in journal {
        if matches!(&entry.call, Call::Freeze) {
            before.push(count)?;
        }
        count = count.wrapping_add(1);
    }
    Ok(before)
}

/// The text with the number of the turn for `{n}`, and the number of calls before the freezes for `{f1}`, `{f2}` and `{f3}`.
pub(crate) fn filled(
    alloc: Global,
    text: &str,
    number: u64,
    journal: &[Entry],
) -> Result<String, Failure> {
    let number = format!(in alloc; "{number}")?;
    let mut text = text.replace(alloc, "{n}", number.as_str())?;
    let mut place = 0u32;
    for before in freezes(alloc, journal)? {
        place = place.wrapping_add(1);
        let name = format!(in alloc; "{{f{place}}}")?;
        let before = format!(in alloc; "{before}")?;
        text = text
            .as_str()
            .replace(alloc, name.as_str(), before.as_str())?;
    }
    Ok(text)
}
