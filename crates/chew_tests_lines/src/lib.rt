//! Tests of the lines of keys, and of the lines of a trace.
#![tactic(auto)]

#[cfg(test)]
mod entries;
#[cfg(test)]
mod output_lines;
