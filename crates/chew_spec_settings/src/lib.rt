//! Definitions of the settings that a text gives.
#![tactic(auto)]

mod laws;
