//! Tests of the pre-edit buffer and the window of candidates.
#![tactic(auto)]

#[cfg(test)]
mod edits;
#[cfg(test)]
mod largest;
#[cfg(test)]
mod marked;
#[cfg(test)]
mod samples;
#[cfg(test)]
mod walk;
#[cfg(test)]
mod windows;
