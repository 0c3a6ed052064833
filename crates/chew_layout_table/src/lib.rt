//! The default layout and Eten: each key is one part of a syllable, or its tone. No call takes memory.
#![tactic(auto)]

mod columns;
mod direct;
mod turn;

pub use columns::Table;
pub use direct::Direct;
