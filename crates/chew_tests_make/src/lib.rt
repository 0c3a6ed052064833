//! Tests of what `make` writes.
#![tactic(auto)]

#[cfg(test)]
mod summaries;
