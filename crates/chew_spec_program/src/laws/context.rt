//! Laws and known values of what contexts do.

ghost use Rattle.std.specs.Prelude.{◌≡◌, ◌∷◌, ◌≤◌, ℕ, List, [], length, take};
ghost use Rattle.chew_spec_dictionary.specs.History.{Entry, calls_of};
ghost use Rattle.chew_spec_text.specs.KeyStroke.{KeyStroke};
ghost use Rattle.chew_spec_text.specs.Line.{Line};
ghost use Rattle.chew_spec_session.specs.Context.{Basis, HandleAll, Handles, talk_in};
ghost use Rattle.chew_spec_program.specs.Sample.{five_basis, first_keys, first_lines, opening_journal, opening_keys, opening_lines, second_keys, second_lines, taught_journal, both_journal, long_journal, short_journal, swapped_journal};

/// A context handles no more keys than it has, and where it handled all of them its calls are those of their talk.
pub fn handled_keys()
    ensures within { (basis : Basis) (journal : List Entry) (who : ℕ) (keys : List KeyStroke) (count : ℕ) (lines : List Line)
        → Handles basis journal who keys count lines → count ≤ length keys }
    ensures all { (basis : Basis) (journal : List Entry) (who : ℕ) (keys : List KeyStroke) (lines : List Line)
        → Handles basis journal who keys (length keys) lines → calls_of journal who ≡ (talk_in basis journal who keys).calls }
    ensures each { (basis : Basis) (journal : List Entry) (number : ℕ) (contexts : List (List KeyStroke)) (counts : List ℕ) (lines : List (List Line))
        → HandleAll basis journal number contexts counts lines → (length counts ≡ length contexts) × (length lines ≡ length contexts) }
{}

/// Two contexts whose calls stand among each other; and the first of them before the look-up of its fifth key, and with
/// that look-up, but before its line. What another context learnt before is found.
pub fn known_contexts()
    ensures both { HandleAll five_basis both_journal 1 (first_keys ∷ (second_keys ∷ [])) (5 ∷ (2 ∷ [])) (first_lines ∷ (second_lines ∷ [])) }
    ensures before { Handles five_basis short_journal 1 first_keys 4 (take 4 first_lines) }
    ensures asked { Handles five_basis both_journal 1 first_keys 4 (take 4 first_lines) }
    ensures none { Handles five_basis [] 3 first_keys 0 [] }
    ensures taught { Handles five_basis taught_journal 1 opening_keys 7 opening_lines }
{}

/// Its calls in another order, one less, one more, and none of its own; a line less than its keys, and another's lines; more
/// calls than the next key asks; a candidate that nobody learnt.
pub fn wrong_contexts()
    ensures swapped { Handles five_basis swapped_journal 1 first_keys 5 first_lines → ⊥ }
    ensures short { Handles five_basis short_journal 1 first_keys 5 first_lines → ⊥ }
    ensures long { Handles five_basis long_journal 1 first_keys 5 first_lines → ⊥ }
    ensures of_other { Handles five_basis both_journal 2 first_keys 5 first_lines → ⊥ }
    ensures line_less { Handles five_basis both_journal 1 first_keys 5 (take 4 first_lines) → ⊥ }
    ensures other_lines { Handles five_basis both_journal 1 first_keys 2 second_lines → ⊥ }
    ensures beyond_next { Handles five_basis long_journal 1 first_keys 4 (take 4 first_lines) → ⊥ }
    ensures too_many { Handles five_basis both_journal 2 second_keys 3 second_lines → ⊥ }
    ensures untaught { Handles five_basis opening_journal 1 opening_keys 7 opening_lines → ⊥ }
    ensures lists { HandleAll five_basis both_journal 1 (first_keys ∷ (second_keys ∷ [])) (5 ∷ []) (first_lines ∷ []) → ⊥ }
{}
