//! What the tests of the shared dictionary begin with: the empty map, calls of users, and the install of a merge.
#![tactic(auto)]

mod calls;
mod merging;
mod opening;

pub use calls::{UserCall, pair};
pub use merging::install_merge;
pub use opening::open_empty;
