//! Writes images: a list of rows as one list of bytes.
#![tactic(auto)]

mod keys;
mod nodes;
mod rows;
mod write;

pub use write::write_image;
