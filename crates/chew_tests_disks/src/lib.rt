//! Tests of disks: one in memory and its crashes, two files, and one whose slots are too long.
#![tactic(auto)]

#[cfg(test)]
mod files;
#[cfg(test)]
mod long;
#[cfg(test)]
mod memory;
