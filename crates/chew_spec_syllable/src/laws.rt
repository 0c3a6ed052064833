//! Laws and known values of the definitions.

mod phrase;
mod row;
mod syllable;
