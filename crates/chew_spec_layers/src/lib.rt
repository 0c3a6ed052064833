//! Definitions of a dictionary in layers: marks, a map under marks, what a stretch of a history changed, and when three
//! layers stand for a plain map.
#![tactic(auto)]

mod laws;
