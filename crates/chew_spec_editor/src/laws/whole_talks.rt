//! Laws of what a whole talk keeps.

ghost use Rattle.std.specs.Prelude.{◌≡◌, ℕ, ◌<◌, ◌≤◌, Contains, IsTrue, length, List, slice_get, Some};
ghost use Rattle.std.specs.List.{list_all};
ghost use Rattle.chew_spec_syllable.specs.Row.{Row, is_row};
ghost use Rattle.chew_spec_dictionary.specs.Call.{Reply};
ghost use Rattle.chew_spec_phrasing.specs.CanSegment.{interval_of};
ghost use Rattle.chew_spec_phrasing.specs.Usable.{Choice, choice_end, is_unbroken};
ghost use Rattle.chew_spec_preedit.specs.PlacedRun.{PlacedRun, run_end, runs_of};
ghost use Rattle.chew_spec_text.specs.KeyStroke.{KeyStroke, is_key_stroke};
ghost use Rattle.chew_spec_editor.specs.Answers.{AreFoundBefore};
ghost use Rattle.chew_spec_editor.specs.Editor.{Editor, empty_editor};
ghost use Rattle.chew_spec_editor.specs.Invariant.{HasSingles, is_editor};
ghost use Rattle.chew_spec_editor.specs.BestPieces.{IsPhrased};
ghost use Rattle.chew_spec_editor.specs.Settings.{Settings};
ghost use Rattle.chew_spec_editor.specs.Talk.{talk_from};

/// A talk leaves an editor, with a row by itself for each of its syllables, where each look-up had what a dictionary finds as
/// its reply.
pub fn talks_keep_an_editor()
    ensures editor { (system : List Row) (editor : Editor) (keys : List KeyStroke) (replies : List Reply) → IsTrue (list_all is_row system)
        → IsTrue (is_editor editor) → HasSingles system editor.buffer.cells → IsTrue (list_all is_key_stroke keys)
        → AreFoundBefore (length (talk_from system editor keys replies).calls) (talk_from system editor keys replies).calls replies
        → IsTrue (is_editor (talk_from system editor keys replies).editor) }
    ensures singles { (system : List Row) (editor : Editor) (keys : List KeyStroke) (replies : List Reply) → IsTrue (list_all is_row system)
        → IsTrue (is_editor editor) → HasSingles system editor.buffer.cells → IsTrue (list_all is_key_stroke keys)
        → AreFoundBefore (length (talk_from system editor keys replies).calls) (talk_from system editor keys replies).calls replies
        → HasSingles system (talk_from system editor keys replies).editor.buffer.cells }
{}

/// The choices of an editor lie apart, from left to right, each in one run, and no break is strictly inside of one.
pub fn choices_lie_apart()
    ensures apart { (editor : Editor) (k j : ℕ) (choice later : Choice) → IsTrue (is_editor editor) → slice_get editor.buffer.choices k ≡ Some choice
        → slice_get editor.buffer.choices j ≡ Some later → k < j → choice_end choice ≤ later.start }
    ensures run { (editor : Editor) (choice : Choice) → IsTrue (is_editor editor) → Contains editor.buffer.choices choice
        → (run : PlacedRun) × Contains (runs_of editor.buffer.cells) run × (run.start ≤ choice.start) × (choice_end choice ≤ run_end run) }
    ensures unbroken { (editor : Editor) (choice : Choice) → IsTrue (is_editor editor) → Contains editor.buffer.choices choice
        → IsTrue (is_unbroken editor.buffer.breaks (interval_of choice)) }
{}

/// The shown pieces of every run are its best segmentation, over the combined rows of what a dictionary found there: so it is of
/// an empty editor, and so it stays over a whole talk.
pub fn shown_pieces_stay_the_best()
    ensures empty { (system : List Row) (settings : Settings) → IsPhrased system (empty_editor settings) }
    ensures talk { (system : List Row) (editor : Editor) (keys : List KeyStroke) (replies : List Reply) → IsTrue (list_all is_row system)
        → IsTrue (is_editor editor) → HasSingles system editor.buffer.cells → IsPhrased system editor → IsTrue (list_all is_key_stroke keys)
        → AreFoundBefore (length (talk_from system editor keys replies).calls) (talk_from system editor keys replies).calls replies
        → IsPhrased system (talk_from system editor keys replies).editor }
{}
