//! A journal of calls read again: what the plain dictionary answers to each call where it stands, what an editor prints
//! for its keys by these answers, and the map after a front of the journal.
#![tactic(auto)]

mod fault;
mod replaying;
mod retold;
mod typing;

pub use fault::ReplayFault;
pub use replaying::{keys_in, replay};
pub use retold::Retold;
