//! Measures learns, looks and forgets of a user's dictionary that has the rows of a real one, by the plain map and in layers, and
//! what a freeze, a merge and an install take.
#![tactic(auto)]

mod figures;
mod image;
mod learning;
mod opening;
mod settling;
mod work;

use crate::image::print_image;
use crate::learning::{Learning, measure_calls};
use crate::opening::rows_of;
use crate::settling::settle;
use crate::work::Work;
use chew_measuring::Failure;
use chew_syllable::KeyRow;
use std::alloc::AllocGlobal;
use std::env;
use std::env::Env;
use std::fs::Files;
use std::io::Print;
use std::process::ExitCode;
use std::time::CpuClock;

/// The status where the words are not one file.
const WRONG_WORDS: u8 = 2;

/// The status where nothing was measured.
const FAILED: u8 = 1;

/// How many calls of each kind are made over all rows.
const CALLS: usize = 60_000;

fn main(rt: HostRuntime) -> ExitCode {
    match measure_layers(&rt) {
        Ok(status) => ExitCode::from(status),
        Err(failure) => {
            let _ = println!(rt; "{failure}");
            ExitCode::from(FAILED)
        }
    }
}

/// Measures the file that the word names: a dictionary.
fn measure_layers<R: Env + Files + Print + CpuClock + AllocGlobal>(rt: &R) -> Result<u8, Failure> {
    let mut words = Vec::new(rt.alloc());
    for word in env::args(rt)?.skip(1) {
        words.push(word)?;
    }
    match words.as_slice() {
        [system] => {
            measure(rt, system.as_str())?;
            Ok(0)
        }
        _ => {
            println!(rt; "layers_speed SYSTEM")?;
            Ok(WRONG_WORDS)
        }
    }
}

/// Measures the image of the rows of a dictionary, and the calls of a user's dictionary that has them.
fn measure<R: Files + Print + CpuClock + AllocGlobal>(rt: &R, system: &str) -> Result<(), Failure> {
    let rows = rows_of(rt, system)?;
    print_image(rt, rt.alloc(), &rows)?;
    let mut learning = Learning::new(rt.alloc())?;
    measure_all(rt, &mut learning, &rows)
}

/// Learns all rows, which then are the base; then one pair; then many, which are looked up, and forgotten.
fn measure_all<R: Print + CpuClock>(
    rt: &R,
    learning: &mut Learning,
    rows: &[KeyRow],
) -> Result<(), Failure> {
    measure_calls(rt, learning, Work::Learn, rows, rows.len())?;
    settle(rt, learning)?;
    measure_calls(rt, learning, Work::Learn, rows, 1)?;
    settle(rt, learning)?;
    measure_calls(rt, learning, Work::Learn, rows, CALLS)?;
    measure_calls(rt, learning, Work::Look, rows, CALLS)?;
    settle(rt, learning)?;
    measure_calls(rt, learning, Work::Forget, rows, CALLS)?;
    settle(rt, learning)
}
