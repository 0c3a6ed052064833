//! Saves one map after the other in the slots of a folder, and tells each that is acknowledged, so that it can be killed at
//! any moment; and tells which map is found there afterwards, whole.
#![tactic(auto)]

mod failure;
mod maps;
mod order;
mod slots;

use crate::failure::Failure;
use crate::slots::{disk_in, found_in, save_next};
use std::env;
use std::process::ExitCode;

/// The status where the words are neither `check FOLDER` nor `write FOLDER`.
const WRONG_WORDS: u8 = 2;

/// The status where the slots are refused, or hold no map that is saved here.
const FAILED: u8 = 1;

/// How many maps are saved where nothing ends it before.
const MAPS: u32 = 100_000;

fn main(rt: HostRuntime) -> ExitCode {
    match write_maps(&rt) {
        Ok(status) => ExitCode::from(status),
        Err(failure) => {
            let _ = eprintln!(rt; "{failure}");
            ExitCode::from(FAILED)
        }
    }
}

fn write_maps(rt: &HostRuntime) -> Result<u8, Failure> {
    let mut words = Vec::new(rt.alloc());
    for word in env::args(rt)?.skip(1) {
        words.push(word)?;
    }
    match words.as_slice() {
        [mode, folder] if mode.as_str() == "check" => check(rt, folder.as_str()),
        [mode, folder] if mode.as_str() == "write" => write(rt, folder.as_str()),
        _ => {
            eprintln!(rt; "slot_writer check FOLDER, or slot_writer write FOLDER")?;
            Ok(WRONG_WORDS)
        }
    }
}

/// Prints the number of the map that is found.
fn check(rt: &HostRuntime, folder: &str) -> Result<u8, Failure> {
    let keep = found_in(rt.alloc(), &mut disk_in(rt, folder)?)?;
    println!(rt; "found {}", keep.seq())?;
    Ok(0)
}

/// The same, and then saves the next maps, and prints the number of each once it is acknowledged.
fn write(rt: &HostRuntime, folder: &str) -> Result<u8, Failure> {
    let mut disk = disk_in(rt, folder)?;
    let mut keep = found_in(rt.alloc(), &mut disk)?;
    println!(rt; "found {}", keep.seq())?;
    for _ in 0..MAPS {
        save_next(rt.alloc(), &mut keep, &mut disk)?;
        println!(rt; "saved {}", keep.seq())?;
    }
    Ok(0)
}
