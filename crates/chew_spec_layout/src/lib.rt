//! Definitions of what each key does to a keyboard layout.
#![tactic(auto)]

mod laws;
