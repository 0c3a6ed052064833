//! The dictionary by its plain meaning: calls and replies, the user's dictionary as a sorted list for each key,
//! and the rows of a system behind a trait.
#![tactic(auto)]

mod call;
mod dictionary;
mod entry;
mod find;
mod frequency;
mod hidden;
mod hit;
mod hits;
mod interval;
mod kept;
mod lexicon;
mod lists;
mod look;
mod order;
mod pairs;
mod places;
mod plain;
mod ranked;
mod reply;
mod row_map;

pub use call::Call;
pub use dictionary::LATEST_LEARN;
pub use entry::Entry;
pub use frequency::next_freq;
pub use hidden::{HIDDEN_TIME, can_hide};
pub use hit::Hit;
pub use hits::Hits;
pub use interval::{Interval, intervals};
pub use lexicon::{Lexicon, RowRef};
pub use order::{image_order, sort_hits, sort_rows};
pub use plain::Plain;
pub use reply::Reply;
pub use row_map::RowMap;
