//! The words of the command line, and the commands that read one input: they write the image of a dictionary's text, an
//! image's numbers, and the text of an image's rows.
#![tactic(auto)]

mod answer;
mod build;
mod command;
mod image_rows;
mod refusal;
pub mod status;

pub use build::build_call;
pub use command::{Command, DIGITS_LIMIT, Words, command_of, is_run};
pub use image_rows::{check_call, dump_call};
