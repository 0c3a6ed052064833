//! The journal of a run of sixteen contexts, read again over the plain dictionary, gives every line that was printed; and whatever a crash
//! leaves of its disk is the map after a front of the journal that is no shorter than the last that was saved.

use crate::failure::Failure;
use crate::walks::{script_of, walks};
use chew_checkpoint::Round;
use chew_outside::{Fails, FreeGate, MemDisk, MemSink, MemSource};
use chew_plain::Entry;
use chew_replay::{Retold, keys_in, replay};
use chew_run_samples::{Outcome, Outside, found_after, run_words};
use chew_samples::FIVE_ROWS;
use chew_script::ROUNDS_LIMIT;
use chew_settings::Settings;
use chew_slots::Found;
use std::alloc::{AllocError, Global};
use std::sync::Wait;
use std::thread::Threads;

/// The calls of the disk from the third on that fail: every so many, and all from one on. The first two find the empty map.
pub(crate) fn broken(alloc: Global, every: u64, from: Option<u64>) -> Result<Fails, Failure> {
    let mut at = Vec::new(alloc);
    let mut call = 2u64;
    for _fault in 0..200u32 {
        call = call.wrapping_add(every);
        at.push(call)?;
    }
    Ok(Fails { at, from })
}

/// The line of a round that was saved or failed.
fn round_line(alloc: Global, number: u32, round: &Round) -> Result<String, Failure> {
    match round {
        Round::Saved(upto) => Ok(format!(in alloc; "round {number} saved {upto}\n")?),
        Round::DiskFault { step } => Ok(format!(in alloc; "round {number} disk fault {step}\n")?),
        _ => Err(Failure::OtherRounds),
    }
}

/// What the run has to print: for each context the lines that its keys have by the journal, and then its rounds.
fn printed(alloc: Global, run: &Outcome, walks: &[String]) -> Result<Vec<u8>, Failure> {
    let settings = Settings::standard();
    let journal = run.done.journal.as_slice();
    let mut text = Vec::new(alloc);
    let mut who = 0u32;
    for walk in walks {
        who = who.wrapping_add(1);
        let header = format!(in alloc; "context {who}\n")?;
        text.extend_from_slice(header.as_bytes())?;
        let keys = keys_in(alloc, walk)?;
        let lines = replay(alloc, &settings, journal, who, keys.as_slice())?;
        text.extend_from_slice(lines.as_slice())?;
    }
    let mut number = 0u32;
    for round in run.done.rounds.as_slice() {
        number = number.wrapping_add(1);
        let line = round_line(alloc, number, round)?;
        text.extend_from_slice(line.as_bytes())?;
    }
    Ok(text)
}

/// How many calls the last round had frozen that was saved.
fn saved_upto(rounds: &[Round]) -> u64 {
    let mut upto = 0;
    for round in rounds {
        if let Round::Saved(number) = round {
            upto = *number;
        }
    }
    upto
}

/// Whether every last round was saved.
fn all_saved(rounds: &[Round], last_from: u32) -> bool {
    rounds
        .iter()
        .skip(last_from as usize)
        .all(|round| matches!(round, Round::Saved(_)))
}

/// What is found on what a crash may leave of a disk, by each of the picks 0 to 7.
fn found_by_picks(alloc: Global, run: &Outcome) -> Result<Vec<Found>, Failure> {
    let mut all = Vec::new(alloc);
    for pick in 0..8u64 {
        all.push(found_after(alloc, &run.disk, pick)?)?;
    }
    Ok(all)
}

/// Those of the maps that the dictionary doesn't hold now.
fn not_held(alloc: Global, retold: &mut Retold, maps: Vec<Found>) -> Result<Vec<Found>, Failure> {
    let mut left = Vec::new(alloc);
    for found in maps {
        if !retold.holds(&found.map, found.life)? {
            left.push(found)?;
        }
    }
    Ok(left)
}

/// Whether each of the maps is the one after a front of the journal of at least so many calls.
fn are_of_fronts(
    alloc: Global,
    journal: &[Entry],
    maps: Vec<Found>,
    least: u64,
) -> Result<bool, Failure> {
    let mut retold = Retold::new(alloc, Settings::standard().cap)?;
    let mut left = maps;
    for entry in journal {
        if retold.place() as u64 >= least {
            left = not_held(alloc, &mut retold, left)?;
        }
        retold.make_told(entry)?;
    }
    Ok(not_held(alloc, &mut retold, left)?.is_empty())
}

/// The words of a run.
pub(crate) const WORDS: [&str; 4] = ["run", "system", "script", "folder"];

/// What a run of this script over the five rows reads and writes, over empty slots with these failing calls.
pub(crate) fn outside_of(alloc: Global, script: &str, disk: Fails) -> Result<Outside, AllocError> {
    let system = FIVE_ROWS.as_bytes().to_vec(alloc)?;
    let script = script.as_bytes().to_vec(alloc)?;
    Ok(Outside {
        settings: MemSource::of(Vec::new(alloc), 4096, Fails::never(alloc)),
        system: MemSource::of(system, 4096, Fails::never(alloc)),
        script: MemSource::of(script, 4096, Fails::never(alloc)),
        sink: MemSink::of(alloc, Fails::never(alloc)),
        disk: MemDisk::of([Vec::new(alloc), Vec::new(alloc)], disk),
    })
}

/// The run ended with the status that its last rounds say, and 64 rounds were made beside its contexts.
fn has_ended_well(run: &Outcome) -> Result<(), Failure> {
    let rounds = run.done.rounds.as_slice();
    let is_saved = all_saved(rounds, run.done.last_from);
    let status = if is_saved { 0 } else { 9 };
    if run.done.status != status || run.done.last_from != ROUNDS_LIMIT {
        return Err(Failure::OtherEnd);
    }
    Ok(())
}

/// What was printed is what the journal says.
fn has_printed_well(alloc: Global, run: &Outcome, walks: &[String]) -> Result<(), Failure> {
    let wanted = printed(alloc, run, walks)?;
    if run.sink.bytes() != wanted.as_slice() {
        return Err(Failure::OtherLines);
    }
    Ok(())
}

/// What a crash leaves now is a map after a front of the journal, no shorter than the last one that was saved.
fn has_left_well(alloc: Global, run: &Outcome) -> Result<(), Failure> {
    let least = saved_upto(run.done.rounds.as_slice());
    let maps = found_by_picks(alloc, run)?;
    if !are_of_fronts(alloc, run.done.journal.as_slice(), maps, least)? {
        return Err(Failure::NoFront);
    }
    Ok(())
}

/// The run ended, printed and left what its journal says. How many calls stand there is given back.
fn is_as_told(alloc: Global, run: &Outcome, walks: &[String]) -> Result<usize, Failure> {
    has_ended_well(run)?;
    has_printed_well(alloc, run, walks)?;
    has_left_well(alloc, run)?;
    Ok(run.done.journal.len())
}

/// Runs a script of sixteen contexts on a disk with these failing calls.
fn ran<R: Wait + Threads + Sync>(
    rt: &R,
    alloc: Global,
    walks: &[String],
    disk: Fails,
) -> Result<Outcome, Failure> {
    let script = script_of(alloc, walks)?;
    let outside = outside_of(alloc, script.as_str(), disk)?;
    Ok(run_words(rt, alloc, &WORDS, outside, &FreeGate))
}

/// Sixteen contexts type beside 64 rounds on a disk with these failing calls. What was printed is what the journal says,
/// and so is what a crash left. How many calls were made is given back.
pub(crate) fn type_well<R: Wait + Threads + Sync>(
    rt: &R,
    alloc: Global,
    seed: u32,
    disk: Fails,
) -> Result<usize, Failure> {
    let walks = walks(alloc, seed)?;
    let run = ran(rt, alloc, walks.as_slice(), disk)?;
    is_as_told(alloc, &run, walks.as_slice())
}
