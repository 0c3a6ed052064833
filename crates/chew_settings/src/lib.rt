//! What the user may set, and the text that says it.
#![tactic(auto)]

mod fault;
mod keys;
mod reader;
mod settings;
mod table;
#[cfg(test)]
mod tests;
mod values;

pub use fault::{SettingCause, SettingsFault};
pub use keys::SettingName;
pub use reader::{SETTINGS_LIMIT, read_settings};
pub use settings::{PAGE_LIMIT, STANDARD_CAP, Settings};
