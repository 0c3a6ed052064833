//! Definitions of images: a list of rows as one list of bytes, and the first faulty place of bytes that are none.
#![tactic(auto)]

mod laws;
