//! Tests of slots of known bytes: both formats, damage and its places, the most rows, and which of two slots counts.
#![tactic(auto)]

#[cfg(test)]
mod damage;
#[cfg(test)]
mod formats;
#[cfg(test)]
mod limits;
#[cfg(test)]
mod pairs;
