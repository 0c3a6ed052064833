//! Definitions of the texts that come in and go out.
#![tactic(auto)]

mod laws;
