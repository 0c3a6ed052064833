//! Tests of the dictionary: what a system answers, and what each call of the user's dictionary answers and leaves.
#![tactic(auto)]

#[cfg(test)]
mod calls;
#[cfg(test)]
mod five_rows;
#[cfg(test)]
mod frequencies;
#[cfg(test)]
mod hiding;
#[cfg(test)]
mod learning;
#[cfg(test)]
mod listed;
#[cfg(test)]
mod many_calls;
#[cfg(test)]
mod snapshots;
#[cfg(test)]
mod sorting;
#[cfg(test)]
mod system;
