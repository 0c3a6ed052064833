//! The order of the causes: each text has two faults.

ghost use Rattle.std.specs.Prelude.{◌≡◌, ◌<◌, ◌≤◌, ℕ, List, [], ◌∷◌, ◌++◌, Some, None, codes, false, length, replicate};
ghost use Rattle.std.specs.Str.{is_utf8};
ghost use Rattle.toml.specs.Data.{Members};
ghost use Rattle.toml.specs.Parse.{parse_document};
ghost use Rattle.chew_spec_settings.specs.Fault.{Size, Toml, Unknown, Kind, Range};
ghost use Rattle.chew_spec_settings.specs.Name.{Layout, Buffer, Page, Selection, EscapeClears, Learn, Cap, Other};
ghost use Rattle.chew_spec_settings.specs.SettingsText.{at_fault, settings_in_table, settings_of, table_in};

/// A text of more than 64 KiB is too long, whatever it says; one of at most 64 KiB isn't: where it is no table, that is told,
/// and else its table alone decides.
pub fn size_of_settings()
    ensures too_long { (text : List ℕ) → 65_536 < length text → settings_of text ≡ at_fault Other Size }
    ensures no_table { (text : List ℕ) → length text ≤ 65_536 → table_in text ≡ None → settings_of text ≡ at_fault Other Toml }
    ensures table { (text : List ℕ) (table : Members) → length text ≤ 65_536 → table_in text ≡ Some table → settings_of text ≡ settings_in_table table }
    ensures one_more { settings_of (replicate 65_537 0x3D) ≡ at_fault Other Size }
    ensures most { settings_of (replicate 65_536 0x3D) ≡ at_fault Other Toml }
{}

/// A text that isn't UTF-8 is no table; one that is UTF-8 is the table that it writes.
pub fn tables_are_utf8()
    ensures no_utf8 { (text : List ℕ) → is_utf8 text ≡ false → table_in text ≡ None }
    ensures comment { settings_of (0x23 ∷ (0xFF ∷ [])) ≡ at_fault Other Toml }
    ensures cut { settings_of (codes "layout = '" ++ 0xC3 ∷ codes "'") ≡ at_fault Other Toml }
{}

/// What is no table of TOML comes before a key that is unknown.
pub fn toml_first()
    ensures word { settings_of (codes "buffer") ≡ at_fault Other Toml }
    ensures no_value { settings_of (codes "bufer = 4\nbuffer =") ≡ at_fault Other Toml }
    ensures twice { settings_of (codes "bufer = 4\nbuffer = 1\nbuffer = 2") ≡ at_fault Other Toml }
    ensures one_line { settings_of (codes "buffer = 1 page = 2") ≡ at_fault Other Toml }
    ensures zeros { settings_of (codes "bufer = 4\nbuffer = 01") ≡ at_fault Other Toml }
{}

/// A key that is unknown comes before a value of another kind, wherever it stands.
pub fn unknown_first()
    ensures misspelt { settings_of (codes "bufer = 4") ≡ at_fault Other Unknown }
    ensures behind { settings_of (codes "layout = 1\nbufer = 4") ≡ at_fault Other Unknown }
    ensures before { settings_of (codes "abc = 4\nlayout = 1") ≡ at_fault Other Unknown }
    ensures after_all { settings_of (codes "buffer = 40\nz = 4") ≡ at_fault Other Unknown }
    ensures capital { settings_of (codes "Buffer = 4") ≡ at_fault Other Unknown }
    ensures longer { settings_of (codes "caps = 4") ≡ at_fault Other Unknown }
    ensures empty { settings_of (codes "'' = 4") ≡ at_fault Other Unknown }
    ensures mark { settings_of (codes "'?' = 4") ≡ at_fault Other Unknown }
    ensures header { settings_of (codes "[editor]\nbuffer = 40") ≡ at_fault Other Unknown }
{}

/// The settings come in their order, and not in the text's; of each its kind comes first, then its range.
pub fn settings_in_their_order()
    ensures layout { settings_of (codes "buffer = 'a'\nlayout = 'a'") ≡ at_fault Layout Range }
    ensures buffer { settings_of (codes "page = true\nbuffer = 40") ≡ at_fault Buffer Range }
    ensures page { settings_of (codes "selection = 1\npage = 0") ≡ at_fault Page Range }
    ensures selection { settings_of (codes "escape_clears = 1\nselection = 'a'") ≡ at_fault Selection Range }
    ensures escape_clears { settings_of (codes "learn = 1\nescape_clears = 0") ≡ at_fault EscapeClears Kind }
    ensures learn { settings_of (codes "cap = true\nlearn = 1") ≡ at_fault Learn Kind }
    ensures first { settings_of (codes "cap = 0\nlearn = 1\nescape_clears = 1\nselection = 1\npage = 0\nbuffer = 0\nlayout = 0") ≡ at_fault Layout Kind }
    ensures last { settings_of (codes "layout = 'eten'\ncap = 0\nlearn = false") ≡ at_fault Cap Range }
{}
