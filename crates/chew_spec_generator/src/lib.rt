//! Definitions of the script that is generated for a number.
#![tactic(auto)]

mod laws;
