//! Known settings.

ghost use Rattle.std.specs.Prelude.{◌≡◌, [], Ok, codes, true, false};
ghost use Rattle.chew_spec_layout.specs.Layout.{Standard, Eten, Hsu, Et26, Pinyin};
ghost use Rattle.chew_spec_editor.specs.Settings.{standard_settings};
ghost use Rattle.chew_spec_settings.specs.SettingsText.{settings_of};

/// The settings of the empty text and of a comment; of a text with every key, in another order than theirs; and of a number
/// that is written in another way.
pub fn known_settings()
    ensures empty { settings_of []
        ≡ Ok (record { layout = Standard; buffer = 10; page = 10; selection = codes "1234567890"; escape_clears = false; learn = true; cap = 65_536 }) }
    ensures comment { settings_of (codes "# buffer = 40\n") ≡ Ok standard_settings }
    ensures all { settings_of (codes "cap = 200_000\nlearn = false\nescape_clears = true\nselection = 'asdfghjkl;'\npage = 9\nbuffer = 2\nlayout = 'hsu'")
        ≡ Ok (record { layout = Hsu; buffer = 2; page = 9; selection = codes "asdfghjkl;"; escape_clears = true; learn = false; cap = 200_000 }) }
    ensures hexadecimal { settings_of (codes "\"buffer\" = 0x0b") ≡ Ok (record standard_settings { buffer = 11 }) }
    ensures escaped { settings_of (codes "layout = \"e\\u0074en\"") ≡ Ok (record standard_settings { layout = Eten }) }
{}

/// The layouts by their names.
pub fn known_layouts()
    ensures standard { settings_of (codes "layout = 'default'") ≡ Ok (record standard_settings { layout = Standard }) }
    ensures eten { settings_of (codes "layout = 'eten'") ≡ Ok (record standard_settings { layout = Eten }) }
    ensures hsu { settings_of (codes "layout = 'hsu'") ≡ Ok (record standard_settings { layout = Hsu }) }
    ensures et26 { settings_of (codes "layout = 'et26'") ≡ Ok (record standard_settings { layout = Et26 }) }
    ensures pinyin { settings_of (codes "layout = 'pinyin'") ≡ Ok (record standard_settings { layout = Pinyin }) }
{}

/// Both values of what is yes or no.
pub fn known_truths()
    ensures escape_clears { settings_of (codes "escape_clears = true") ≡ Ok (record standard_settings { escape_clears = true }) }
    ensures escape_leaves { settings_of (codes "escape_clears = false") ≡ Ok (record standard_settings { escape_clears = false }) }
    ensures learn { settings_of (codes "learn = true") ≡ Ok (record standard_settings { learn = true }) }
    ensures learn_not { settings_of (codes "learn = false") ≡ Ok (record standard_settings { learn = false }) }
{}
