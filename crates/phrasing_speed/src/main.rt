//! Measures what keys cost where a buffer has 39 cells, by what phrasing and the user's dictionary do for each whole
//! syllable: a look, and the best segmentation. There is no editor in it.
#![tactic(auto)]

mod figures;
mod opening;
mod typing;

use crate::figures::Figures;
use crate::opening::{keys_of, system_of};
use crate::typing::Typing;
use chew_measuring::Failure;
use chew_script::KeyStroke;
use std::alloc::AllocGlobal;
use std::env;
use std::env::Env;
use std::fs::Files;
use std::io::Print;
use std::process::ExitCode;
use std::time::CpuClock;

/// The status where the words are no two files.
const WRONG_WORDS: u8 = 2;

/// The status where nothing was measured.
const FAILED: u8 = 1;

fn main(rt: HostRuntime) -> ExitCode {
    match measure_phrasing(&rt) {
        Ok(status) => ExitCode::from(status),
        Err(failure) => {
            let _ = println!(rt; "{failure}");
            ExitCode::from(FAILED)
        }
    }
}

/// Measures the files that the words name: a dictionary and a script.
fn measure_phrasing<R: Env + Files + Print + CpuClock + AllocGlobal>(
    rt: &R,
) -> Result<u8, Failure> {
    let mut words = Vec::new(rt.alloc());
    for word in env::args(rt)?.skip(1) {
        words.push(word)?;
    }
    match words.as_slice() {
        [system, script] => {
            measure(rt, system.as_str(), script.as_str())?;
            Ok(0)
        }
        _ => {
            println!(rt; "phrasing_speed SYSTEM SCRIPT")?;
            Ok(WRONG_WORDS)
        }
    }
}

/// Types the keys of the script's last context, and prints what they cost.
fn measure<R: Files + Print + CpuClock + AllocGlobal>(
    rt: &R,
    system: &str,
    script: &str,
) -> Result<(), Failure> {
    let system = system_of(rt, system)?;
    let keys = keys_of(rt, script)?;
    let mut typing = Typing::of(rt.alloc(), system)?;
    let mut figures = Figures::none();
    for key in &keys {
        if let KeyStroke::Char(byte) = key {
            typing.take(rt, *byte, &mut figures)?;
        }
    }
    figures.print(rt)
}
