//! The keys of a script, the text of a script, a generated one, and the lines that are printed for keys and in a trace.
#![tactic(auto)]

mod contexts;
mod entry;
mod fault;
mod generator;
mod keys;
mod keystroke;
mod limits;
mod names;
mod note;
mod output_line;
mod partial_script;
mod script;
mod script_line;
mod text;

pub use contexts::Contexts;
pub use entry::{append_entry, print_entry};
pub use fault::{ScriptCause, ScriptFault};
pub use generator::generate;
pub use keystroke::KeyStroke;
pub use limits::{CONTEXTS_LIMIT, KEYS_LIMIT, ROUNDS_LIMIT, SCRIPT_LIMIT};
pub use note::Note;
pub use output_line::{Line, append_line, print_line};
pub use script::{Script, read_script};
pub use text::Text;
