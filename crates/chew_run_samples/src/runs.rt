//! Runs of the program over what stands in memory.

ghost use Rattle.std.specs.Prelude.{map};
ghost use Rattle.chew_run_samples.specs.Runs.{IsRunOver};

use crate::outside::Outside;
use chew_outside::{Gate, MemDisk, MemSink, MemSource};
use chewing_cli::{Done, chewing};
use std::alloc::Global;
use std::sync::Wait;
use std::thread::Threads;

/// A run that has ended, and what it read and wrote.
#[derive(Drop)]
pub struct Outcome {
    pub done: Done,
    pub settings: MemSource,
    pub system: MemSource,
    pub script: MemSource,
    pub sink: MemSink,
    pub disk: MemDisk,
}

/// Runs the program on these words.
pub fn run_words<R: Wait + Threads + Sync, G: Gate>(
    rt: &R,
    alloc: Global,
    words: &[&str],
    outside: Outside,
    gate: &G,
) -> Outcome
    ensures { IsRunOver (map (λ word. word.now) words.now) outside result }
{
    let Outside {
        mut settings,
        mut system,
        mut script,
        mut sink,
        mut disk,
    } = outside;
    let done = chewing(
        alloc,
        rt,
        words,
        &mut settings,
        &mut system,
        &mut script,
        &mut sink,
        &mut disk,
        gate,
    );
    Outcome {
        done,
        settings,
        system,
        script,
        sink,
        disk,
    }
}
