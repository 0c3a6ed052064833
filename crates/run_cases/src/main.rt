//! Runs of the program over texts and disks in memory, by files of cases: what is given, which calls fail, and what has to be
//! printed, answered and left. Each file that a word names is read, and how many of its cases hold is told, or the first that
//! does not, and why.
#![tactic(auto)]

mod case;
mod failure;
mod given;
mod running;
mod texts;
mod turn;
mod wanted;

use crate::case::{Part, case_of, name_of};
use crate::failure::Failure;
use crate::running::make_case;
use chew_outside::MemDisk;
use std::alloc::AllocGlobal;
use std::env::Env;
use std::fs::Files;
use std::io::Print;
use std::process::ExitCode;
use std::sync::Wait;
use std::thread::Threads;
use std::{env, fs};
use toml::Value;

/// The status where a case does not hold.
const FAILED: u8 = 1;

fn main(rt: HostRuntime) -> ExitCode {
    match run_files(&rt) {
        Ok(()) => ExitCode::SUCCESS,
        Err(failure) => {
            let _ = println!(rt; "{failure}");
            ExitCode::from(FAILED)
        }
    }
}

/// Tries the cases of each file.
fn run_files<R: Env + Files + Print + AllocGlobal + Wait + Threads + Sync>(
    rt: &R,
) -> Result<(), Failure> {
    for name in env::args(rt)?.skip(1) {
        let text = fs::read_to_string(rt, name.as_str())?;
        let file = toml::table_from_str(rt.alloc(), text.as_str())?;
        let file = Part::of(&file);
        file.has_only(&["slots", "case"])?;
        try_cases(rt, name.as_str(), file.part("slots")?, file.list("case")?)?;
    }
    Ok(())
}

/// Tries the cases of a file, each with what the one before left of its disk.
fn try_cases<R: Print + AllocGlobal + Wait + Threads + Sync>(
    rt: &R,
    file: &str,
    slots: Part,
    cases: &[Value],
) -> Result<(), Failure> {
    let mut disk: Option<MemDisk> = None;
    for value in cases {
        let case = case_of(value)?;
        match make_case(rt, rt.alloc(), slots, case, disk.as_ref()) {
            Ok(left) => disk = Some(left),
            Err(failure) => {
                let name = name_of(value)?;
                println!(rt; "{file}: {name}")?;
                return Err(failure);
            }
        }
    }
    let count = cases.len();
    println!(rt; "{file}: {count} cases hold")?;
    Ok(())
}
