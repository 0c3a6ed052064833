//! Measures what calls cost of a dictionary that contexts share: calls as typing makes them, by one thread and by several that
//! have nothing else to do, and beside them the same calls of layers that nobody shares.
#![tactic(auto)]

ghost use Rattle.std.specs.Prelude.{◌≤◌};

mod alone;
mod beside;
mod calls;
mod contexts;
mod figures;
mod opening;
mod words;

use crate::alone::measure_alone;
use crate::beside::{CONTEXTS, measure_beside};
use crate::calls::typed;
use crate::contexts::measure_contexts;
use crate::figures::{Measured, Who};
use crate::opening::{Base, map_of};
use crate::words::words_of;
use chew_measuring::Failure;
use chew_shared_samples::UserCall;
use std::alloc::AllocGlobal;
use std::env;
use std::env::Env;
use std::fs::Files;
use std::io::Print;
use std::process::ExitCode;
use std::sync::Wait;
use std::thread::Threads;
use std::time::{Clock, CpuClock};

/// The status where the words are more than one file.
const WRONG_WORDS: u8 = 2;

/// The status where nothing was measured.
const FAILED: u8 = 1;

/// What is measured.
#[derive(Drop)]
struct Plan<'a> {
    base: Base<'a>,
    /// How many lines are typed, of which the calls are.
    lines: usize,
    /// The calls of each measure.
    calls: u64,
    /// How often each is measured.
    times: u32,
    /// Whether times are printed, or only how many calls were answered.
    figures: bool,
}

fn main(rt: HostRuntime) -> ExitCode {
    match measure_words(&rt) {
        Ok(status) => ExitCode::from(status),
        Err(failure) => {
            let _ = println!(rt; "{failure}");
            ExitCode::from(FAILED)
        }
    }
}

/// Measures calls over the image that the word names. Without a word it makes few calls over five rows, and measures nothing.
fn measure_words<R: Env + Files + Print + Clock + CpuClock + AllocGlobal + Threads + Wait + Sync>(
    rt: &R,
) -> Result<u8, Failure> {
    let mut words = Vec::new(rt.alloc());
    for word in env::args(rt)?.skip(1) {
        words.push(word)?;
    }
    let plan = match words.as_slice() {
        [] => Plan {
            base: Base::Nothing,
            lines: 20,
            calls: 1600,
            times: 1,
            figures: false,
        },
        [image] => Plan {
            base: Base::Image(image.as_str()),
            lines: 4000,
            calls: 160_000,
            times: 3,
            figures: true,
        },
        _ => {
            println!(rt; "shared_speed, or shared_speed IMAGE")?;
            return Ok(WRONG_WORDS);
        }
    };
    measure(rt, &plan)?;
    Ok(0)
}

/// The calls of the lines that are typed, of the words of the base.
fn calls_of<R: Files + AllocGlobal>(rt: &R, plan: &Plan<'_>) -> Result<Vec<UserCall>, Failure> {
    let words = words_of(rt, &plan.base)?;
    typed(rt.alloc(), words.as_slice(), plan.lines)
}

/// Makes the calls of the same lines alone, and by 1, 2, 4 and 16 contexts at once.
fn measure<R: Files + Print + Clock + CpuClock + AllocGlobal + Threads + Wait + Sync>(
    rt: &R,
    plan: &Plan<'_>,
) -> Result<(), Failure> {
    let calls = calls_of(rt, plan)?;
    measure_all(rt, plan, calls.as_slice())
}

/// Makes these calls alone, and by 1, 2, 4 and 16 contexts at once.
fn measure_all<R: Files + Print + Clock + CpuClock + AllocGlobal + Threads + Wait + Sync>(
    rt: &R,
    plan: &Plan<'_>,
    calls: &[UserCall],
) -> Result<(), Failure> {
    println!(rt; "{} calls of {} lines", calls.len(), plan.lines)?;
    for _ in 0..plan.times {
        let measured = measure_alone(rt, map_of(rt, &plan.base)?, calls, plan.calls)?;
        print(rt, plan, Who::Alone, &measured)?;
    }
    measure_shared(rt, plan, calls, 1)?;
    measure_shared(rt, plan, calls, 2)?;
    measure_shared(rt, plan, calls, 4)?;
    measure_shared(rt, plan, calls, 16)?;
    measure_rounds(rt, plan, calls)
}

/// Has contexts make the calls while the keeper makes rounds.
fn measure_rounds<R: Files + Print + Clock + CpuClock + AllocGlobal + Threads + Wait + Sync>(
    rt: &R,
    plan: &Plan<'_>,
    calls: &[UserCall],
) -> Result<(), Failure> {
    for _ in 0..plan.times {
        let map = map_of(rt, &plan.base)?;
        let measured = measure_beside(rt, map, calls, plan.calls)?;
        print(rt, plan, Who::Beside(CONTEXTS), &measured)?;
    }
    Ok(())
}

/// Has so many contexts make the calls at once.
fn measure_shared<R: Files + Print + Clock + CpuClock + AllocGlobal + Threads + Wait + Sync>(
    rt: &R,
    plan: &Plan<'_>,
    calls: &[UserCall],
    contexts: u32,
) -> Result<(), Failure>
    requires { contexts ≤ 16 }
{
    for _ in 0..plan.times {
        let map = map_of(rt, &plan.base)?;
        let measured = measure_contexts(rt, map, contexts, calls, plan.calls)?;
        print(rt, plan, Who::AtOnce(contexts), &measured)?;
    }
    Ok(())
}

/// Prints what was measured.
fn print<R: Print>(rt: &R, plan: &Plan<'_>, who: Who, measured: &Measured) -> Result<(), Failure> {
    if plan.figures {
        measured.print(rt, who)
    } else {
        measured.print_count(rt, who)
    }
}
