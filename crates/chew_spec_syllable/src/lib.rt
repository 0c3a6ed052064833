//! Definitions of syllables, phrases, keys and the rows of a dictionary.
#![tactic(auto)]

mod laws;
