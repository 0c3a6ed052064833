//! Definitions of the dictionary that contexts share: what a call of a pass makes of what it has seen, what the keeper is given,
//! and what is needed.
#![tactic(auto)]

mod laws;
