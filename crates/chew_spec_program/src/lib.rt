//! Definitions of the whole program: its words, what it reads, writes and keeps, and what a run is.
#![tactic(auto)]

mod laws;
