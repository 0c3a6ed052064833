//! Definitions of the system's answers, the user's dictionary and its history.
#![tactic(auto)]

mod laws;
