//! Laws of hidden phrases.

ghost use Rattle.std.specs.Prelude.{◌≡◌, ◌≢◌, ℕ, ◌-◌, ◌<◌, ◌≤◌, ◌∷◌, [], codes, Contains, drop, IsFalse, IsTrue, length, List, map, None, slice_get, Some};
ghost use Rattle.std.specs.List.{list_all};
ghost use Rattle.chew_spec_syllable.specs.Row.{Row, is_row, no_pair_twice};
ghost use Rattle.chew_spec_dictionary.specs.Call.{Full, Hide, Hit, Learn, Look, Reply, is_proper};
ghost use Rattle.chew_spec_dictionary.specs.Dictionary.{is_map};
ghost use Rattle.chew_spec_dictionary.specs.HiddenPairs.{is_hidden};
ghost use Rattle.chew_spec_dictionary.specs.History.{Point, answer};
ghost use Rattle.chew_spec_dictionary.specs.Look.{Interval, codes_at, hits_of, intervals};
ghost use Rattle.chew_spec_dictionary.specs.System.{row_of};
ghost use Rattle.chew_spec_phrasing.specs.CombinedRows.{combined_hits};
ghost use Rattle.chew_spec_phrasing.specs.Usable.{Piece, phrase_len, piece_of_choice};
ghost use Rattle.chew_spec_preedit.specs.PlacedRun.{PlacedRun, run_end, runs_of};
ghost use Rattle.chew_spec_preedit.specs.Window.{CandidateList, Window};
ghost use Rattle.chew_spec_editor.specs.Answers.{AreAnswers};
ghost use Rattle.chew_spec_editor.specs.Finish.{finish, hits_in};
ghost use Rattle.chew_spec_editor.specs.HiddenPhrases.{IsHiddenAt, IsOfPhrase};
ghost use Rattle.chew_spec_editor.specs.Invariant.{HasSingles, is_pending};
ghost use Rattle.chew_spec_editor.specs.Pending.{Pending, runs_asked};
ghost use Rattle.chew_spec_editor.specs.Sample.{last_lines};
ghost use Rattle.chew_spec_editor.specs.Settings.{standard_settings};
ghost use Rattle.chew_spec_text.specs.Sample.{bytes_of};

/// A phrase that a look-up found hidden is shown nowhere but where it was chosen before: a piece of it is a choice's own. It
/// is no candidate of a window either.
pub fn hidden_phrases_are_not_shown()
    ensures rows { (system : List Row) (run : List ℕ) (hits : List Hit) (at : Interval) (phrase : List ℕ) (hit : Hit) → IsHiddenAt hits at phrase
        → Contains (combined_hits system run hits) hit → IsOfPhrase at phrase hit → ⊥ }
    ensures pieces { (system : List Row) (pending : Pending) (replies : List Reply) (k : ℕ) (run : PlacedRun) (reply : Reply) (piece : Piece)
        → IsTrue (list_all is_row system) → HasSingles system pending.editor.buffer.cells → IsTrue (is_pending pending) → pending.opens ≡ None
        → AreAnswers pending replies → slice_get (runs_of pending.editor.buffer.cells) k ≡ Some run
        → slice_get (drop (length pending.changes) replies) k ≡ Some reply → Contains (finish system pending replies).editor.pieces piece
        → run.start ≤ piece.start → piece.start < run_end run
        → IsHiddenAt (hits_in reply) (record { start = piece.start - run.start; len = phrase_len piece.phrase }) piece.phrase
        → Contains (map piece_of_choice pending.editor.buffer.choices) piece }
    ensures window { (system : List Row) (pending : Pending) (replies rest : List Reply) (run : PlacedRun)
        (runs : List PlacedRun) (reply : Reply) (window : Window) (list : CandidateList) (hit : Hit)
        → runs_asked pending ≡ run ∷ runs → drop (length pending.changes) replies ≡ reply ∷ rest
        → (finish system pending replies).editor.window ≡ Some window → Contains window.lists list → Contains list.rows hit
        → IsHiddenAt (hits_in reply) (record { start = window.place - run.start; len = list.len }) hit.phrase → ⊥ }
{}

/// A row of a user's dictionary that is hidden is found hidden at each interval of its key, where no pair stands twice. One
/// of a single syllable never is hidden, and no key hides it.
pub fn hidden_rows_are_found()
    ensures rows { (rows : List Row) (run : List ℕ) (row : Row) (at : Interval) → IsTrue (no_pair_twice rows) → Contains rows row
        → IsTrue (is_hidden row) → Contains (intervals (length run)) at → row.key ≡ codes_at run at → IsHiddenAt (hits_of rows run) at row.phrase }
    ensures single { (rows : List Row) (run : List ℕ) (hit : Hit) → Contains (hits_of rows run) hit → hit.len ≡ 1 → IsFalse hit.hidden }
    ensures two { (key phrase : List ℕ) → IsTrue (is_proper (Hide key phrase)) → 2 ≤ length key }
{}

/// A learn brings a hidden phrase back: the next look-up finds it, and not as a hidden one.
pub fn learning_shows_again()
    ensures found { (point : Point) (key phrase : List ℕ) (orig peak : ℕ) (row : Row) (run : List ℕ) (at : Interval)
        → row_of point.dictionary.pairs key phrase ≡ Some row → IsTrue (is_hidden row) → Contains (intervals (length run)) at → codes_at run at ≡ key
        → (hit : Hit) × Contains (hits_in (answer (answer point (Learn key phrase orig peak)).point (Look run)).reply) hit × IsOfPhrase at phrase hit }
    ensures shown { (point : Point) (key phrase : List ℕ) (orig peak : ℕ) (run : List ℕ) (at : Interval) (hit : Hit)
        → IsTrue (is_map point.dictionary.pairs) → (answer point (Learn key phrase orig peak)).reply ≢ Full → codes_at run at ≡ key
        → Contains (hits_in (answer (answer point (Learn key phrase orig peak)).point (Look run)).reply) hit → IsOfPhrase at phrase hit
        → IsFalse hit.hidden }
{}

/// 測試 is chosen and then hidden: it stays shown, Enter learns it, and then it is shown again.
pub fn known_hidden_choice()
    ensures stays { last_lines 1 standard_settings (codes "hk4g4<H><V>1<H><K2>") ≡ bytes_of "測試\t0\t\t\t\thidden\n" ∷ [] }
    ensures back { last_lines 1 standard_settings (codes "hk4g4<H><V>1<H><K2><E>hk4g4") ≡ bytes_of "測試\t4\t\t\t\t\n" ∷ [] }
    ensures without { last_lines 1 standard_settings (codes "hk4g4<H><K2><E>hk4g4<H><V>") ≡ bytes_of "策是\t0\t\t\t1/1 1策是\t\n" ∷ [] }
{}
