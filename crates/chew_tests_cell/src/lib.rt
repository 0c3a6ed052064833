//! Tests of the cell, by threads that share a journal.
#![tactic(auto)]

mod journal;
#[cfg(test)]
mod tests;
mod threads;

pub use journal::Journal;
pub use threads::{call, call_all, crew};
