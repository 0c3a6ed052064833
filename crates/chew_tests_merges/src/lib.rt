//! Tests of layers with known answers: the calls of known keys, a snapshot that is saved while the dictionary goes on, and the
//! most pairs.
#![tactic(auto)]

#[cfg(test)]
mod known_calls;
#[cfg(test)]
mod largest;
#[cfg(test)]
mod replies;
#[cfg(test)]
mod saved_snapshot;
#[cfg(test)]
mod steps;
