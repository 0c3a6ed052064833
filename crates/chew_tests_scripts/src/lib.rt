//! Tests of scripts.
#![tactic(auto)]

#[cfg(test)]
mod generated;
#[cfg(test)]
mod limits;
#[cfg(test)]
mod script_faults;
#[cfg(test)]
mod script_text;
