//! The least and the greatest value of each setting, and those beyond.

ghost use Rattle.std.specs.Prelude.{◌≡◌, ◌∷◌, ◌++◌, Ok, codes};
ghost use Rattle.chew_spec_editor.specs.Settings.{standard_settings};
ghost use Rattle.chew_spec_settings.specs.Fault.{Range, Toml};
ghost use Rattle.chew_spec_settings.specs.Name.{Layout, Buffer, Page, Selection, Cap, Other};
ghost use Rattle.chew_spec_settings.specs.SettingsText.{at_fault, settings_of};

/// The buffer has 1 to 39 cells.
pub fn range_of_the_buffer()
    ensures least { settings_of (codes "buffer = 1") ≡ Ok (record standard_settings { buffer = 1 }) }
    ensures greatest { settings_of (codes "buffer = 39") ≡ Ok (record standard_settings { buffer = 39 }) }
    ensures below { settings_of (codes "buffer = 0") ≡ at_fault Buffer Range }
    ensures above { settings_of (codes "buffer = 40") ≡ at_fault Buffer Range }
    ensures negative { settings_of (codes "buffer = -1") ≡ at_fault Buffer Range }
{}

/// A page has 1 to 10 candidates.
pub fn range_of_the_page()
    ensures least { settings_of (codes "page = 1") ≡ Ok (record standard_settings { page = 1 }) }
    ensures greatest { settings_of (codes "page = 10") ≡ Ok (record standard_settings { page = 10 }) }
    ensures below { settings_of (codes "page = 0") ≡ at_fault Page Range }
    ensures above { settings_of (codes "page = 11") ≡ at_fault Page Range }
    ensures negative { settings_of (codes "page = -10") ≡ at_fault Page Range }
{}

/// The dictionary takes 1 to 200,000 pairs. What has more than 64 bits is no number of TOML.
pub fn range_of_the_cap()
    ensures least { settings_of (codes "cap = 1") ≡ Ok (record standard_settings { cap = 1 }) }
    ensures greatest { settings_of (codes "cap = 200000") ≡ Ok (record standard_settings { cap = 200_000 }) }
    ensures below { settings_of (codes "cap = 0") ≡ at_fault Cap Range }
    ensures above { settings_of (codes "cap = 200001") ≡ at_fault Cap Range }
    ensures negative { settings_of (codes "cap = -9223372036854775808") ≡ at_fault Cap Range }
    ensures most_bits { settings_of (codes "cap = 9223372036854775807") ≡ at_fault Cap Range }
    ensures more_bits { settings_of (codes "cap = 9223372036854775808") ≡ at_fault Other Toml }
{}

/// A layout has one of the five names, in small letters.
pub fn names_of_layouts()
    ensures capital { settings_of (codes "layout = 'Default'") ≡ at_fault Layout Range }
    ensures capitals { settings_of (codes "layout = 'HSU'") ≡ at_fault Layout Range }
    ensures other { settings_of (codes "layout = 'standard'") ≡ at_fault Layout Range }
    ensures longer { settings_of (codes "layout = 'eten '") ≡ at_fault Layout Range }
    ensures shorter { settings_of (codes "layout = 'et2'") ≡ at_fault Layout Range }
    ensures empty { settings_of (codes "layout = ''") ≡ at_fault Layout Range }
{}

/// The selection keys are ten different bytes from 0x21 to 0x7E.
pub fn range_of_the_selection()
    ensures ends { settings_of (codes "selection = '!23456789~'") ≡ Ok (record standard_settings { selection = codes "!23456789~" }) }
    ensures twice { settings_of (codes "selection = '1234567891'") ≡ at_fault Selection Range }
    ensures beside { settings_of (codes "selection = '1234567800'") ≡ at_fault Selection Range }
    ensures space { settings_of (codes "selection = '12345 7890'") ≡ at_fault Selection Range }
    ensures delete { settings_of (codes "selection = \"123456789\\u007f\"") ≡ at_fault Selection Range }
    ensures nine { settings_of (codes "selection = '123456789'") ≡ at_fault Selection Range }
    ensures eleven { settings_of (codes "selection = '1234567890a'") ≡ at_fault Selection Range }
    ensures empty { settings_of (codes "selection = ''") ≡ at_fault Selection Range }
    ensures ten_bytes { settings_of (codes "selection = '12345678" ++ 0xC3 ∷ (0xA9 ∷ codes "'")) ≡ at_fault Selection Range }
    ensures ten_characters { settings_of (codes "selection = '123456789" ++ 0xC3 ∷ (0xA9 ∷ codes "'")) ≡ at_fault Selection Range }
{}
