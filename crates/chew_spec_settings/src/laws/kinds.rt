//! Values of another kind than their setting's.

ghost use Rattle.std.specs.Prelude.{◌≡◌, ◌↔◌, ℕ, codes, None, Err};
ghost use Rattle.toml.specs.Data.{Data, as_bool, as_integer, as_str};
ghost use Rattle.chew_spec_settings.specs.Fault.{Kind};
ghost use Rattle.chew_spec_settings.specs.Name.{Layout, Buffer, Page, Selection, EscapeClears, Learn, Cap};
ghost use Rattle.chew_spec_settings.specs.SettingsText.{at_fault, settings_of};
ghost use Rattle.chew_spec_settings.specs.Values.{layout_value, integer_up_to, selection_value, truth};

/// What is no number, no text, or neither yes nor no has another kind, and nothing else.
pub fn kinds_of_values()
    ensures number { (greatest : ℕ) (value : Data) → (integer_up_to greatest value ≡ Err Kind) ↔ (as_integer value ≡ None) }
    ensures layout { (value : Data) → (layout_value value ≡ Err Kind) ↔ (as_str value ≡ None) }
    ensures selection { (value : Data) → (selection_value value ≡ Err Kind) ↔ (as_str value ≡ None) }
    ensures truth { (value : Data) → (truth value ≡ Err Kind) ↔ (as_bool value ≡ None) }
{}

/// Each setting with a value of each kind that isn't its own.
pub fn wrong_kinds()
    ensures layout { settings_of (codes "layout = 1") ≡ at_fault Layout Kind }
    ensures layout_in_an_array { settings_of (codes "layout = ['hsu']") ≡ at_fault Layout Kind }
    ensures layout_bare { settings_of (codes "layout = true") ≡ at_fault Layout Kind }
    ensures buffer_as_text { settings_of (codes "buffer = '10'") ≡ at_fault Buffer Kind }
    ensures buffer_as_float { settings_of (codes "buffer = 10.0") ≡ at_fault Buffer Kind }
    ensures buffer_as_date { settings_of (codes "buffer = 1979-05-27") ≡ at_fault Buffer Kind }
    ensures buffer_as_time { settings_of (codes "buffer = 07:32:00") ≡ at_fault Buffer Kind }
    ensures buffer_as_array { settings_of (codes "buffer = [10]") ≡ at_fault Buffer Kind }
    ensures buffer_as_table { settings_of (codes "buffer = { cells = 10 }") ≡ at_fault Buffer Kind }
    ensures dotted { settings_of (codes "buffer.cells = 10") ≡ at_fault Buffer Kind }
    ensures header { settings_of (codes "[buffer]\ncells = 10") ≡ at_fault Buffer Kind }
    ensures headers { settings_of (codes "[[page]]\n[[page]]") ≡ at_fault Page Kind }
    ensures page { settings_of (codes "page = false") ≡ at_fault Page Kind }
    ensures selection { settings_of (codes "selection = 1234567890") ≡ at_fault Selection Kind }
    ensures selection_in_an_array { settings_of (codes "selection = ['1', '2', '3', '4', '5', '6', '7', '8', '9', '0']") ≡ at_fault Selection Kind }
    ensures escape_clears_as_number { settings_of (codes "escape_clears = 1") ≡ at_fault EscapeClears Kind }
    ensures escape_clears_as_text { settings_of (codes "escape_clears = 'true'") ≡ at_fault EscapeClears Kind }
    ensures learn_as_number { settings_of (codes "learn = 0") ≡ at_fault Learn Kind }
    ensures learn_as_text { settings_of (codes "learn = 'false'") ≡ at_fault Learn Kind }
    ensures cap_as_float { settings_of (codes "cap = 1e3") ≡ at_fault Cap Kind }
    ensures cap_as_text { settings_of (codes "cap = '1'") ≡ at_fault Cap Kind }
{}
