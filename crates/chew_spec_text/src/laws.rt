//! Laws and known values of the definitions.

mod dictionary_text;
mod digits;
mod entry;
mod keys;
mod line;
mod lines;
mod script;
