ghost use Rattle.std.specs.Prelude.{◌≡◌, ◌≤◌, length};
ghost use Rattle.chew_spec_settings.specs.Name.{is_setting, setting_word};
ghost use Rattle.chew_settings.specs.Faults.{name_of};

use std::fmt;

/// The settings by their names, in the order in which they are read.
#[derive(Clone, Copy, Debug, PartialEq, Eq)]
pub enum SettingName {
    Layout,
    Buffer,
    Page,
    Selection,
    EscapeClears,
    Learn,
    Cap,
    /// None of them.
    Other,
}

impl SettingName {
    /// Its key in a text; `?` of `Other`. It takes no memory.
    pub fn word(self) -> &'static str
        ensures word { result.now ≡ setting_word (name_of self) }
        ensures short { length result.now ≤ 13 }
    {
        match self {
            SettingName::Layout => "layout",
            SettingName::Buffer => "buffer",
            SettingName::Page => "page",
            SettingName::Selection => "selection",
            SettingName::EscapeClears => "escape_clears",
            SettingName::Learn => "learn",
            SettingName::Cap => "cap",
            SettingName::Other => "?",
        }
    }
}

impl fmt::Display for SettingName {
    fn fmt<W: fmt::Write>(&self, f: &mut fmt::Formatter<W>) -> fmt::Result {
        f.write_str(self.word())
    }
}

/// Whether a key is one of a setting.
pub(crate) fn is_setting(key: &str) -> bool
    ensures { result ≡ is_setting key.now }
{
    match key {
        "layout" | "buffer" | "page" | "selection" | "escape_clears" | "learn" | "cap" => true,
        _ => false,
    }
}
