//! Sixteen contexts type thousands of keys each beside 64 rounds, on a disk that is sound, that fails often, or that stops. The
//! journal of each run is read again over the plain map: it has to give every line that was printed, and every map that a crash
//! may leave has to be one after a front of it. A last run has the most keys of a script, and prints known lines.
#![tactic(auto)]

mod crowd;
mod failure;
mod most_keys;
mod walks;

use crate::crowd::{broken, type_well};
use crate::failure::Failure;
use crate::most_keys::type_most;
use chew_outside::Fails;
use std::alloc::AllocGlobal;
use std::io::Print;
use std::process::ExitCode;
use std::sync::Wait;
use std::thread::Threads;

/// The status where a run is not what its journal says.
const FAILED: u8 = 1;

/// The fewest calls that such a run makes: some hundreds for each context.
const FEWEST_CALLS: usize = 12_000;

fn main(rt: HostRuntime) -> ExitCode {
    match run_crowds(&rt) {
        Ok(()) => ExitCode::SUCCESS,
        Err(failure) => {
            let _ = println!(rt; "{failure}");
            ExitCode::from(FAILED)
        }
    }
}

fn run_crowds<R: Print + AllocGlobal + Wait + Threads + Sync>(rt: &R) -> Result<(), Failure> {
    let alloc = rt.alloc();
    try_on(rt, "a sound disk", 1, Fails::never(alloc))?;
    try_on(rt, "a disk that fails often", 2, broken(alloc, 5, None)?)?;
    try_on(rt, "a disk that stops", 3, broken(alloc, 17, Some(150))?)?;
    type_most(rt, alloc)?;
    println!(rt; "the most keys of a script: each context prints the lines of its keys")?;
    Ok(())
}

/// Has them type on this disk, and tells that all is as the journal says.
fn try_on<R: Print + AllocGlobal + Wait + Threads + Sync>(
    rt: &R,
    name: &str,
    seed: u32,
    disk: Fails,
) -> Result<(), Failure> {
    let count = type_well(rt, rt.alloc(), seed, disk)?;
    if count < FEWEST_CALLS {
        return Err(Failure::OtherEnd);
    }
    println!(rt; "{name}: the journal gives what was printed and what a crash leaves")?;
    Ok(())
}
