//! The text of a dictionary: read into its rows, and printed from rows.
#![tactic(auto)]

mod apart;
mod cause;
mod fields;
mod frequency;
mod limits;
mod line_reader;
mod pair;
mod row_line;
mod rows_printer;
mod rows_reader;
mod syllables;
mod whole_reader;

pub use cause::{RowCause, RowsFault};
pub use limits::{ROWS_LIMIT, SYSTEM_LIMIT};
pub use rows_printer::print_rows;
pub use rows_reader::read_rows;
