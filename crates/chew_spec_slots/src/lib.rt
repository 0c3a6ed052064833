//! Definitions of two slots: how each reads, what both recover to, and when a crash harms neither.
#![tactic(auto)]

mod laws;
