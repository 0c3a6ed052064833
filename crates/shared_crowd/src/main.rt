//! Sixteen contexts make thousands of calls of one dictionary, beside a keeper that freezes, merges and installs. Then the plain
//! map makes the same calls in the order of the journal: it has to reply to each number just what that was told.
#![tactic(auto)]

mod beside;
mod calls;
mod contexts;
mod failure;
mod heard;
mod kinds;
mod plainly;
mod replayed;
mod replies;
mod rounds;

use crate::beside::all_beside;
use crate::calls::all_calls;
use crate::contexts::{Told, beginners};
use crate::failure::Failure;
use crate::heard::{Heard, part};
use crate::replayed::compare;
use chew_shared::Opened;
use chew_shared_samples::open_empty;
use std::alloc::AllocGlobal;
use std::io::Print;
use std::process::ExitCode;
use std::sync::Wait;
use std::thread::Threads;

/// How many contexts there are, and how many pairs the map has at most.
const CONTEXTS: u32 = 16;

const CAP: u32 = 5;

/// The status where a number was told something else, or nothing could be compared.
const FAILED: u8 = 1;

fn main(rt: HostRuntime) -> ExitCode {
    match run_crowd(&rt) {
        Ok(()) => ExitCode::SUCCESS,
        Err(failure) => {
            let _ = println!(rt; "{failure}");
            ExitCode::from(FAILED)
        }
    }
}

/// Has all make their calls, and compares what they were told with what the plain map replies.
fn run_crowd<R: Print + AllocGlobal + Threads + Wait + Sync>(rt: &R) -> Result<(), Failure> {
    let alloc = rt.alloc();
    let calls = all_calls(alloc)?;
    let Opened {
        shared,
        keeper,
        passes,
    } = open_empty(alloc, CAP, CONTEXTS)?;
    let contexts = beginners(alloc, &shared, passes)?;
    let (contexts, kept) = all_beside(rt, alloc, &shared, keeper, contexts, calls.as_slice());
    let Told {
        pass: keeper,
        replies,
    } = kept?;
    let mut told = Vec::new(alloc);
    told.push(Heard { who: 0, replies })?;
    let passes = part(alloc, &shared, contexts, &mut told)?;
    if passes.len() != CONTEXTS as usize {
        return Err(Failure::Passes);
    }
    let layers = shared.close(keeper, passes);
    let count = layers.journal().len();
    compare(alloc, layers, CAP, told.as_slice(), calls.as_slice())?;
    println!(rt;
        "{count} calls of {CONTEXTS} contexts and a keeper: each was told what the plain map replies"
    )?;
    Ok(())
}
