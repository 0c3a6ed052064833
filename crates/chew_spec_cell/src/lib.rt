//! Definitions of a cell that threads share: its passes, what they have seen of its history, and what a turn adds.
#![tactic(auto)]

mod laws;
