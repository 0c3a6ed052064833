//! Laws of what is shown: pieces, windows and notes.

ghost use Rattle.std.specs.Prelude.{◌≡◌, ◌≢◌, ℕ, ◌+◌, ◌<◌, ◌≤◌, ◌==◌, chars, Contains, drop, IsTrue, length, List, None, position, Some, take};
ghost use Rattle.std.specs.List.{list_all};
ghost use Rattle.chew_spec_syllable.specs.Row.{Row, is_row};
ghost use Rattle.chew_spec_dictionary.specs.Call.{Full, Hit, NotThere, Reply};
ghost use Rattle.chew_spec_phrasing.specs.Usable.{Choice, phrase_len};
ghost use Rattle.chew_spec_preedit.specs.Edit.{chosen};
ghost use Rattle.chew_spec_preedit.specs.PlacedRun.{runs_of};
ghost use Rattle.chew_spec_preedit.specs.Window.{CandidateList, Window, candidate_lists, candidates_of, is_whole_at, next_page, page_before, picked, shorter};
ghost use Rattle.chew_spec_text.specs.KeyStroke.{Char, Down, Esc, Left, PageDown, PageUp, Right, Up};
ghost use Rattle.chew_spec_text.specs.Line as line;
ghost use Rattle.chew_spec_text.specs.Line.{Note};
ghost use Rattle.chew_spec_editor.specs.Answers.{AreAnswers};
ghost use Rattle.chew_spec_editor.specs.Editor.{Editor, characters_of};
ghost use Rattle.chew_spec_editor.specs.Finish.{finish, note_after};
ghost use Rattle.chew_spec_editor.specs.Invariant.{HasSingles, is_pending};
ghost use Rattle.chew_spec_editor.specs.Keys.{press, with_window};
ghost use Rattle.chew_spec_editor.specs.Pending.{Pending};
ghost use Rattle.chew_spec_editor.specs.Phrasings.{best_of_runs};
ghost use Rattle.chew_spec_editor.specs.Press.{bell, edit, quiet};

/// Where all runs are asked, the shown pieces are the best of each run, by the reply to its own look-up alone.
pub fn best_pieces_are_shown()
    ensures { (system : List Row) (pending : Pending) (replies : List Reply) → IsTrue (list_all is_row system)
        → HasSingles system pending.editor.buffer.cells → IsTrue (is_pending pending) → pending.opens ≡ None → AreAnswers pending replies
        → (finish system pending replies).editor.pieces
        ≡ best_of_runs system pending.editor.buffer (runs_of pending.editor.buffer.cells) (drop (length pending.changes) replies) }
{}

/// A window has a list for each length from 1 to 11 that fits, that no break parts, and that has a row; each list has all
/// rows of its length at the place.
pub fn windows_show_all_candidates()
    ensures lists { (rows : List Hit) (breaks : List ℕ) (n place len : ℕ) → 1 ≤ len → len ≤ 11 → place + len ≤ n
        → IsTrue (is_whole_at breaks place len) → 0 < length (candidates_of rows place len).rows
        → Contains (candidate_lists rows breaks n place) (candidates_of rows place len) }
    ensures only { (rows : List Hit) (breaks : List ℕ) (n place : ℕ) (list : CandidateList) → Contains (candidate_lists rows breaks n place) list
        → (list ≡ candidates_of rows place list.len) × IsTrue (is_whole_at breaks place list.len) }
    ensures rows { (rows : List Hit) (place len : ℕ) (hit : Hit) → Contains rows hit → hit.start ≡ place → hit.len ≡ len
        → Contains (candidates_of rows place len).rows hit }
{}

/// The moves in a window ask nothing and change the window alone. A selection key makes the candidate that it names a
/// choice, or rings where there is none.
pub fn window_keys()
    ensures down { (system : List Row) (editor : Editor) (window : Window) → editor.window ≡ Some window
        → press system editor Down ≡ with_window editor (shorter window) }
    ensures next { (system : List Row) (editor : Editor) (window : Window) → editor.window ≡ Some window
        → (press system editor PageDown ≡ with_window editor (next_page window)) × (press system editor Right ≡ with_window editor (next_page window)) }
    ensures before { (system : List Row) (editor : Editor) (window : Window) → editor.window ≡ Some window
        → (press system editor PageUp ≡ with_window editor (page_before window)) × (press system editor Left ≡ with_window editor (page_before window)) }
    ensures close { (system : List Row) (editor : Editor) (window : Window) → editor.window ≡ Some window
        → (press system editor Up ≡ quiet (record editor { window = None })) × (press system editor Esc ≡ quiet (record editor { window = None })) }
    ensures pick { (system : List Row) (editor : Editor) (window : Window) (byte k : ℕ) (choice : Choice) → editor.window ≡ Some window
        → position (λ key. key == byte) editor.settings.selection ≡ Some k → picked window k ≡ Some choice
        → press system editor (Char byte) ≡ edit system editor (chosen choice editor.buffer) }
    ensures none { (system : List Row) (editor : Editor) (window : Window) (byte k : ℕ) → editor.window ≡ Some window
        → position (λ key. key == byte) editor.settings.selection ≡ Some k → picked window k ≡ None → press system editor (Char byte) ≡ bell editor }
{}

/// The note of a key: full where anything found the dictionary full, else none where anything was not there, and else what
/// the key says.
pub fn notes_follow_the_replies()
    ensures full { (note : Note) (replies : List Reply) → Contains replies Full → note_after note replies ≡ line.Full }
    ensures missing { (note : Note) (replies : List Reply) → ((one : Reply) → Contains replies one → one ≢ Full)
        → Contains replies NotThere → note_after note replies ≡ line.Missing }
    ensures said { (note : Note) (replies : List Reply) → ((one : Reply) → Contains replies one → one ≢ Full)
        → ((one : Reply) → Contains replies one → one ≢ NotThere) → note_after note replies ≡ note }
    ensures of_changes { (system : List Row) (pending : Pending) (replies : List Reply)
        → (finish system pending replies).line.note ≡ note_after pending.note (take (length pending.changes) replies) }
{}

/// A choice's characters are shown at its place, whatever the dictionary answers.
pub fn choices_stay_shown()
    ensures { (system : List Row) (pending : Pending) (replies : List Reply) (choice : Choice) → IsTrue (list_all is_row system)
        → HasSingles system pending.editor.buffer.cells → IsTrue (is_pending pending) → pending.opens ≡ None → AreAnswers pending replies
        → Contains pending.editor.buffer.choices choice
        → take (phrase_len choice.phrase) (drop choice.start (characters_of (finish system pending replies).editor)) ≡ chars choice.phrase }
{}
