//! The window of candidates: what may stand at a place of the buffer, a list for each length, shown a page at a time.
#![tactic(auto)]

mod candidate_list;
mod window;

pub use candidate_list::CandList;
pub use window::Window;
