//! What readers and printers of texts share: lines, the text before and behind a byte, numbers in decimal digits, and
//! fields that are appended whole or not at all.
#![tactic(auto)]

mod append;
mod cut;
mod digits;
mod lines;

pub use append::{append_decimal, append_fields, append_number};
pub use cut::cut_at;
pub use digits::{is_number, number_up_to};
pub use lines::Lines;
