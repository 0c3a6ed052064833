//! Tests of checkpoints over a disk whose calls fail in turn, with crashes after each.
#![tactic(auto)]

#[cfg(test)]
mod failing_calls;
#[cfg(test)]
mod steps;
