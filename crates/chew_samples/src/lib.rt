//! Samples that the tests of several crates use.
#![tactic(auto)]

mod apart;
mod five_rows;

pub use apart::are_apart;
pub use five_rows::{CE, FIVE_ROWS, SHI, five, row, syllable};
