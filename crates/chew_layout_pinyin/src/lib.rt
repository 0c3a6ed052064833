//! Pinyin: a syllable is spelled by letters, and ended by the digit of its tone or by Space. No call takes memory.
#![tactic(auto)]

mod lookup;
mod pinyin;
mod tables;
mod turn;

pub use pinyin::Pinyin;
