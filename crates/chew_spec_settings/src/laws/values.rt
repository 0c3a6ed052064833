//! What the settings of a text are.

ghost use Rattle.std.specs.Prelude.{◌≡◌, ℕ, IsTrue, List, Ok};
ghost use Rattle.chew_spec_editor.specs.Invariant.{is_settings};
ghost use Rattle.chew_spec_editor.specs.Settings.{Settings};
ghost use Rattle.chew_spec_settings.specs.SettingsText.{settings_of};

/// The settings of a text are in their ranges.
pub fn settings_in_range()
    ensures { (text : List ℕ) (settings : Settings) → settings_of text ≡ Ok settings → IsTrue (is_settings settings) }
{}
