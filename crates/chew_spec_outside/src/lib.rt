//! Definitions of what a program sees of the outside: faults, what a source has left, what a sink took.
#![tactic(auto)]

mod laws;
