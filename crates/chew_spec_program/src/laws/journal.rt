//! Laws of the journal of a run.

ghost use Rattle.std.specs.Prelude.{All, IsTrue, length, List, ℕ};
ghost use Rattle.std.specs.List.{list_all};
ghost use Rattle.chew_spec_syllable.specs.Row.{is_row};
ghost use Rattle.chew_spec_dictionary.specs.History.{Entry, is_legal};
ghost use Rattle.chew_spec_text.specs.KeyStroke.{KeyStroke, is_key_stroke};
ghost use Rattle.chew_spec_text.specs.Line.{Line};
ghost use Rattle.chew_spec_editor.specs.Invariant.{is_settings};
ghost use Rattle.chew_spec_session.specs.Context.{Basis, HandleAll, IsOfContext};

/// The journal of a run is legal: each context made the calls of its talk alone, and those may be made. What a context hears
/// decides what it learns, so this holds because each look-up was answered by a dictionary of rows.
pub fn journal_is_legal()
    ensures { (basis : Basis) (journal : List Entry) (contexts : List (List KeyStroke)) (counts : List ℕ) (lines : List (List Line))
        → IsTrue (list_all is_row basis.system) → IsTrue (is_settings basis.settings) → IsTrue (list_all is_row basis.start.dictionary.pairs)
        → IsTrue (list_all (list_all is_key_stroke) contexts) → HandleAll basis journal 1 contexts counts lines
        → All (IsOfContext (length contexts)) journal → IsTrue (is_legal basis.start journal) }
{}
