//! Definitions of a disk with two slots: what reads give, and what a crash at any moment may leave.
#![tactic(auto)]

mod laws;
