//! Images: a dictionary as one list of bytes, checked and read where it lies. No call takes memory.
#![tactic(auto)]

mod check;
mod counts;
mod fault;
mod fields;
mod node;
mod nodes_read;
mod number;
mod parts;
mod phrase;
mod rows_read;
mod walk;

pub use check::check_image;
pub use counts::{Counts, HEADER_LEN, counts_in};
pub use fault::ImageFault;
pub use fields::{ROW_LEN, RowFields, row_at};
pub use node::{NODE_LEN, Node, node_at};
pub use parts::{EMPTY_IMAGE, MAGIC};
pub use rows_read::phrase_in;
