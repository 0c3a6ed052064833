//! Runs of the program over texts and disks in memory, and what is found on such a disk, which the programs share that try runs.
#![tactic(auto)]

mod journals;
mod maps;
mod outside;
mod runs;

pub use journals::{calls_text, own_calls_text};
pub use maps::found_after;
pub use outside::Outside;
pub use runs::{Outcome, run_words};
