//! Definitions of rounds, by which a growing history is saved again and again into two slots: what each round leaves of a
//! disk, and what a session of rounds does.
#![tactic(auto)]

mod laws;
