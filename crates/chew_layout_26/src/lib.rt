//! Hsu and ET26: each key is a letter that may stand for several parts of a syllable. No call takes memory.
#![tactic(auto)]

mod columns;
mod letter_reading;
mod numbers;
mod raw_26;
mod taken;
mod turn;

pub use columns::Letters;
pub use raw_26::Raw26;
