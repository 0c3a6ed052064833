//! Reads images: a dictionary that is looked up where its bytes lie. No call takes memory.
#![tactic(auto)]

pub mod alike;
mod find;
mod image;
mod iter;
mod keys;
mod rows;
mod trie;

pub use iter::{EachIter, RowsIter};
pub use trie::Trie;
