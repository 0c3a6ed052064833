//! The top call of the program: it reads the words of the command line, settings, a system dictionary and a script, recovers
//! what the user taught, and runs the script's contexts at once, while a worker saves what they learn.
#![tactic(auto)]

mod done;
mod finishing;
mod opening;
mod program;
mod refusal;
mod run;
mod sending;
mod system;
mod tracing;
mod words;

pub use chew_commands::{Command, Words, build_call, check_call, command_of, dump_call};
pub use done::Done;
pub use program::chewing;
