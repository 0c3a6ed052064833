//! Merges a layer of marks into the map that it lies over: one image of both, made while the dictionary goes on.
#![tactic(auto)]

mod new_base;
mod overlaid;
mod rows;
mod snapshot;

pub use snapshot::merge;

#[cfg(test)]
mod tests;
