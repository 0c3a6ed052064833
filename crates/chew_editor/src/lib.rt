//! The editor: what each key does, what it asks of the dictionary, and the line that shows it then.
#![tactic(auto)]

mod asked;
mod asking;
mod candidates;
mod cells_text;
mod changes;
mod characters;
mod committing;
mod edit_keys;
mod editor;
mod finishing;
mod inserting;
mod keys;
mod learn_calls;
mod learning;
mod line;
mod move_keys;
mod noting;
mod opening;
mod outcome;
mod pending;
mod phrase_keys;
mod phrasing;
mod pressing;
mod renewing;
mod rows;
mod settling;
mod state;
mod stretch;
mod window_keys;
mod window_text;

pub use editor::Editor;
pub use finishing::finish;
pub use pending::Pending;
pub use pressing::{Pressed, press};
