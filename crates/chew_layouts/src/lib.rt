//! Any of the layouts, as one type. No call takes memory.
#![tactic(auto)]

mod kind;
mod layout;

pub use kind::Kind;
pub use layout::Layout;
