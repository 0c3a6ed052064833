//! The user's dictionary, shared by contexts and a keeper: each call is one turn, and all calls stand in one history.
#![tactic(auto)]

mod calls;
mod keeper;
mod legal;
mod opened;
mod shared;

pub use opened::{KeeperPass, Opened};
pub use shared::Shared;
