//! The most keys of a script, 65,536, by sixteen contexts: each types ㄘ and takes it back, again and again.

use crate::crowd::{WORDS, outside_of};
use crate::failure::Failure;
use chew_outside::{Fails, FreeGate};
use chew_run_samples::{Outcome, run_words};
use chew_script::{CONTEXTS_LIMIT, KEYS_LIMIT};
use std::alloc::Global;
use std::sync::Wait;
use std::thread::Threads;

/// How many keys each context types.
const KEYS_EACH: usize = KEYS_LIMIT / CONTEXTS_LIMIT;

/// The two keys of one time.
const KEYS: &str = "h<B>";

/// The lines of these keys.
const LINES: &str = "\t0\tㄘ\t\t\t\n\t0\t\t\t\t\n";

/// The text, as often as a context types the two keys.
fn all_times(alloc: Global, text: &str) -> Result<String, Failure> {
    let mut times = String::new(alloc);
    for _time in 0..KEYS_EACH / 2 {
        times.push_str(text)?;
    }
    Ok(times)
}

/// The script of all contexts.
fn script(alloc: Global) -> Result<String, Failure> {
    let keys = all_times(alloc, KEYS)?;
    let mut script = String::new(alloc);
    for place in 0..CONTEXTS_LIMIT {
        let context = place.saturating_add(1);
        let line = format!(in alloc; "{context}:{}\n", keys.as_str())?;
        script.push_str(&line)?;
    }
    Ok(script)
}

/// What is printed: the header of each context and the lines of its keys, and no round, since nothing was learnt.
fn printed(alloc: Global) -> Result<String, Failure> {
    let lines = all_times(alloc, LINES)?;
    let mut printed = String::new(alloc);
    for place in 0..CONTEXTS_LIMIT {
        let context = place.saturating_add(1);
        let part = format!(in alloc; "context {context}\n{}", lines.as_str())?;
        printed.push_str(&part)?;
    }
    Ok(printed)
}

/// The run ended well, and each context handled its keys.
fn has_handled_all(run: &Outcome) -> Result<(), Failure> {
    let handled = run.done.handled.as_slice();
    if run.done.status != 0 || handled.len() != CONTEXTS_LIMIT {
        return Err(Failure::OtherEnd);
    }
    if handled.iter().any(|&count| count as usize != KEYS_EACH) {
        return Err(Failure::OtherEnd);
    }
    Ok(())
}

/// What was printed is the lines of the keys.
fn has_printed_all(alloc: Global, run: &Outcome) -> Result<(), Failure> {
    let wanted = printed(alloc)?;
    if run.sink.bytes() != wanted.as_bytes() {
        return Err(Failure::OtherLines);
    }
    Ok(())
}

/// Sixteen contexts type the most keys of a script, on a sound disk.
pub(crate) fn type_most<R: Wait + Threads + Sync>(rt: &R, alloc: Global) -> Result<(), Failure> {
    let script = script(alloc)?;
    let outside = outside_of(alloc, script.as_str(), Fails::never(alloc))?;
    let run = run_words(rt, alloc, &WORDS, outside, &FreeGate);
    has_handled_all(&run)?;
    has_printed_all(alloc, &run)
}
