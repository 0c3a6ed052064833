//! Definitions of the pre-edit buffer: its cells, runs, breaks and choices, its edits, what it shows, and the window of
//! candidates over it.
#![tactic(auto)]

mod laws;
