//! The marks of one layer of the user's dictionary: for some pairs, in image order, a frequency and a time or a grave.
#![tactic(auto)]

mod buffer;
mod iter;
mod mark;
mod order;
mod ranked;

pub use buffer::Buffer;
pub use iter::{MarkRef, MarksIter};
pub use mark::Mark;
pub use order::pair_order;
