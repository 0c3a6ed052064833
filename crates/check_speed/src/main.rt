//! Measures how long images take to be checked: of each file that is named, the least processor time of many checks.
#![tactic(auto)]

use chew_trie_image::check_image;
use std::alloc::AllocGlobal;
use std::env::Env;
use std::fs::Files;
use std::io::Print;
use std::time::{CpuClock, Duration};
use std::{env, fs, io};

/// How often a file is checked.
const CHECKS: u32 = 60;

fn main(rt: HostRuntime) -> io::Result<()> {
    for name in env::args(&rt)?.skip(1) {
        measure(&rt, name.as_str())?;
    }
    Ok(())
}

/// Prints how many bytes a file has, how many of its checks found a fault, and what the fastest took.
fn measure<R: Env + Files + Print + CpuClock + AllocGlobal>(rt: &R, name: &str) -> io::Result<()> {
    let image = fs::read(rt, name)?;
    let mut least = Duration::MAX;
    let mut faults = 0u32;
    for _ in 0..CHECKS {
        let before = rt.thread_cpu_time()?;
        if check_image(image.as_slice()).is_err() {
            faults = faults.saturating_add(1);
        }
        let after = rt.thread_cpu_time()?;
        least = least.min(after.saturating_sub(before));
    }
    println!(rt;
        "{} bytes, {faults} faults, {} us",
        image.len(),
        least.as_micros()
    )?;
    Ok(())
}
