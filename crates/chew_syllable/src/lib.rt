//! Syllables, keys, runs and phrases, the rows of a dictionary, and what a key did to a layout. No call takes memory.
#![tactic(auto)]

mod arrays;
mod bopomofo_reading;
mod characters;
mod columns;
mod key;
mod memory;
mod parts;
mod phrase;
mod row;
mod step;
mod syllable;
#[cfg(test)]
mod tests;
mod text;

pub use arrays::{array_of, string_of, text_of, utf8_of};
pub use bopomofo_reading::read_bopomofo;
pub use characters::split_character;
pub use columns::{Columns, has_key, number_in, number_of, place_of};
pub use key::{KEY_LIMIT, Key, RUN_LIMIT, Run};
pub use memory::NoMemory;
pub use parts::Parts;
pub use phrase::{BadPhrase, CHARACTER_LIMIT, PHRASE_LIMIT, Phrase, is_allowed};
pub use row::{GREATEST_FREQ, KeyRow, SYSTEM_ROWS_LIMIT, USER_ROWS_LIMIT};
pub use step::{BACKSPACE, SPACE, Step};
pub use syllable::{BadSyllable, Syllable};
pub use text::print_bopomofo;
