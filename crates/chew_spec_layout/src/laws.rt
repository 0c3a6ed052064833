//! Laws and known values of the definitions.

mod keys;
mod layout;
mod letters;
mod patterns;
mod spelling;
mod spellings;
mod table;
