//! Tests of slots that are cut and changed at each byte, against a second reading.
#![tactic(auto)]

#[cfg(test)]
mod changed;
#[cfg(test)]
mod later_damage;
#[cfg(test)]
mod naive;
