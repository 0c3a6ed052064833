//! Laws of what is committed and learnt.

ghost use Rattle.std.specs.Prelude.{◌≡◌, ℕ, ◌+◌, ◌<◌, ◌++◌, ◌∷◌, [], Contains, drop, encode_utf8_all, flat_map, IsFalse, IsTrue, length, List, map, None, ◌==◌};
ghost use Rattle.std.specs.List.{list_all};
ghost use Rattle.chew_spec_syllable.specs.Row.{Row};
ghost use Rattle.chew_spec_layout.specs.Layout.{holds};
ghost use Rattle.chew_spec_phrasing.specs.Usable.{Piece, is_unbroken, phrase_len};
ghost use Rattle.chew_spec_preedit.specs.Cell.{Cell, has_sound};
ghost use Rattle.chew_spec_preedit.specs.Edit.{emptied, inserted, is_full, released};
ghost use Rattle.chew_spec_text.specs.KeyStroke.{Enter};
ghost use Rattle.chew_spec_editor.specs.Commits.{buffer_left, changes_made, committed, phrase_learnt};
ghost use Rattle.chew_spec_editor.specs.Editor.{Editor, characters_of, shown_text};
ghost use Rattle.chew_spec_editor.specs.Invariant.{is_piece};
ghost use Rattle.chew_spec_editor.specs.Keys.{press};
ghost use Rattle.chew_spec_editor.specs.Learning.{Stretch, learns, stretch_of, stretches};
ghost use Rattle.chew_spec_editor.specs.Press.{asking, edit, insert, leading_cells, releasing};

/// Enter commits exactly the text that was shown, empties the buffer, and learns what it commits where the settings say so.
pub fn enter_commits_what_was_shown()
    ensures commit { (system : List Row) (editor : Editor) → editor.window ≡ None → IsFalse (holds editor.layout)
        → 0 < length editor.buffer.cells → committed (press system editor Enter) ≡ shown_text editor }
    ensures buffer { (system : List Row) (editor : Editor) → editor.window ≡ None → IsFalse (holds editor.layout)
        → 0 < length editor.buffer.cells → buffer_left (press system editor Enter) ≡ emptied editor.buffer }
    ensures learns { (system : List Row) (editor : Editor) → editor.window ≡ None → IsFalse (holds editor.layout)
        → 0 < length editor.buffer.cells → IsTrue editor.settings.learn
        → changes_made (press system editor Enter) ≡ learns system editor.buffer.cells editor.buffer.breaks editor.pieces }
    ensures off { (system : List Row) (editor : Editor) → editor.window ≡ None → IsFalse (holds editor.layout)
        → 0 < length editor.buffer.cells → IsFalse editor.settings.learn → changes_made (press system editor Enter) ≡ [] }
{}

/// What is learnt, one after another, is the text of all pieces, each once. A piece of two or more syllables is a stretch
/// by itself, and no stretch of single syllables has a break strictly inside.
pub fn all_pieces_are_learnt()
    ensures text { (system : List Row) (cells : List Cell) (breaks : List ℕ) (pieces : List Piece) → IsTrue (list_all is_piece pieces)
        → flat_map phrase_learnt (learns system cells breaks pieces) ≡ flat_map (λ piece. piece.phrase) pieces }
    ensures long { (breaks : List ℕ) (pieces : List Piece) (piece : Piece) → Contains pieces piece → IsFalse (phrase_len piece.phrase == 1)
        → Contains (stretches breaks pieces) (stretch_of piece) }
    ensures whole { (breaks : List ℕ) (pieces : List Piece) (stretch : Stretch) → IsTrue (list_all is_piece pieces)
        → Contains (stretches breaks pieces) stretch → IsTrue stretch.is_single
        → IsTrue (is_unbroken breaks (record { start = stretch.start; len = phrase_len stretch.phrase })) }
{}

/// A full buffer commits the front of what was shown before it takes a cell, and learns it, but for a symbol. The other
/// cells stay.
pub fn full_buffers_release()
    ensures full { (system : List Row) (editor : Editor) (cell : Cell) → IsTrue (is_full editor.buffer)
        → insert system editor cell ≡ asking system (releasing system editor cell) }
    ensures room { (system : List Row) (editor : Editor) (cell : Cell) → IsFalse (is_full editor.buffer)
        → insert system editor cell ≡ edit system editor (inserted editor.buffer cell) }
    ensures front { (system : List Row) (editor : Editor) (cell : Cell)
        → shown_text editor ≡ (releasing system editor cell).commit ++ encode_utf8_all (drop (leading_cells editor) (characters_of editor)) }
    ensures rest { (system : List Row) (editor : Editor) (cell : Cell)
        → (releasing system editor cell).editor.buffer ≡ inserted (released (leading_cells editor) editor.buffer) cell }
    ensures symbol { (system : List Row) (editor : Editor) (cell : Cell) → IsFalse (has_sound editor.buffer.cells 0)
        → (releasing system editor cell).changes ≡ [] }
    ensures off { (system : List Row) (editor : Editor) (cell : Cell) → IsFalse editor.settings.learn
        → (releasing system editor cell).changes ≡ [] }
    ensures learns { (system : List Row) (editor : Editor) (cell : Cell) → IsTrue editor.settings.learn → IsTrue (has_sound editor.buffer.cells 0)
        → map phrase_learnt (releasing system editor cell).changes ≡ (releasing system editor cell).commit ∷ [] }
{}
