//! Tests of a dictionary's text: what is read, what is refused and where, and what is printed.
#![tactic(auto)]

#[cfg(test)]
mod limits;
#[cfg(test)]
mod text;
