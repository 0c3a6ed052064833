//! What every key keeps.

ghost use Rattle.std.specs.Prelude.{◌≡◌, codes, IsFalse, IsTrue, List};
ghost use Rattle.std.specs.List.{list_all};
ghost use Rattle.chew_spec_syllable.specs.Row.{Row, is_row};
ghost use Rattle.chew_spec_dictionary.specs.Call.{Reply, is_proper};
ghost use Rattle.chew_spec_dictionary.specs.History.{Point};
ghost use Rattle.chew_spec_text.specs.KeyStroke.{KeyStroke, is_key_stroke};
ghost use Rattle.chew_spec_text.specs.Line.{Line};
ghost use Rattle.chew_spec_editor.specs.Alone.{alone};
ghost use Rattle.chew_spec_editor.specs.Answers.{AreAnswers};
ghost use Rattle.chew_spec_editor.specs.Editor.{Editor, empty_editor};
ghost use Rattle.chew_spec_editor.specs.Finish.{finish};
ghost use Rattle.chew_spec_editor.specs.Invariant.{HasSingles, is_editor, is_pending, is_settings};
ghost use Rattle.chew_spec_editor.specs.Keys.{press};
ghost use Rattle.chew_spec_editor.specs.Pending.{Pending, calls_of};
ghost use Rattle.chew_spec_editor.specs.Press.{Done, Ask};
ghost use Rattle.chew_spec_editor.specs.Sample.{with_cap, with_cells, with_page};
ghost use Rattle.chew_spec_editor.specs.Settings.{Settings, standard_settings};

/// An empty editor is one, and a key leaves an editor, or a pending one while it asks.
pub fn keys_keep_an_editor()
    ensures empty { (settings : Settings) → IsTrue (is_settings settings) → IsTrue (is_editor (empty_editor settings)) }
    ensures done { (system : List Row) (editor after : Editor) (key : KeyStroke) (line : Line) → IsTrue (is_editor editor)
        → IsTrue (is_key_stroke key) → press system editor key ≡ Done after line → IsTrue (is_editor after) }
    ensures ask { (system : List Row) (editor : Editor) (key : KeyStroke) (pending : Pending) → IsTrue (is_editor editor)
        → IsTrue (is_key_stroke key) → press system editor key ≡ Ask pending → IsTrue (is_pending pending) }
{}

/// What the replies to its calls make of a pending editor is an editor.
pub fn replies_leave_an_editor()
    ensures { (system : List Row) (pending : Pending) (replies : List Reply) → IsTrue (list_all is_row system)
        → HasSingles system pending.editor.buffer.cells → IsTrue (is_pending pending) → AreAnswers pending replies
        → IsTrue (is_editor (finish system pending replies).editor) }
{}

/// Where the system has a row by itself for each syllable of the buffer, it has one for each of those that a key leaves.
pub fn syllables_have_rows()
    ensures done { (system : List Row) (editor after : Editor) (key : KeyStroke) (line : Line) → HasSingles system editor.buffer.cells
        → press system editor key ≡ Done after line → HasSingles system after.buffer.cells }
    ensures ask { (system : List Row) (editor : Editor) (key : KeyStroke) (pending : Pending) → HasSingles system editor.buffer.cells
        → press system editor key ≡ Ask pending → HasSingles system pending.editor.buffer.cells }
{}

/// The replies decide the pieces and the window alone.
pub fn replies_change_what_is_shown()
    ensures settings { (system : List Row) (pending : Pending) (replies : List Reply)
        → (finish system pending replies).editor.settings ≡ pending.editor.settings }
    ensures layout { (system : List Row) (pending : Pending) (replies : List Reply)
        → (finish system pending replies).editor.layout ≡ pending.editor.layout }
    ensures buffer { (system : List Row) (pending : Pending) (replies : List Reply)
        → (finish system pending replies).editor.buffer ≡ pending.editor.buffer }
    ensures commit { (system : List Row) (pending : Pending) (replies : List Reply)
        → (finish system pending replies).line.commit ≡ pending.commit }
{}

/// Each call that a key asks may be made, where the system's rows are rows.
pub fn calls_are_proper()
    ensures { (system : List Row) (editor : Editor) (key : KeyStroke) (pending : Pending) → IsTrue (list_all is_row system)
        → IsTrue (is_editor editor) → IsTrue (is_key_stroke key) → press system editor key ≡ Ask pending
        → IsTrue (list_all is_proper (calls_of pending)) }
{}

/// An editor alone with a dictionary of rows stays an editor, whatever is typed.
pub fn typing_keeps_an_editor()
    ensures { (system : List Row) (editor : Editor) (point : Point) (keys : List KeyStroke) → IsTrue (list_all is_row system)
        → HasSingles system editor.buffer.cells → IsTrue (is_editor editor) → IsTrue (list_all is_row point.dictionary.pairs)
        → IsTrue (list_all is_key_stroke keys) → IsTrue (is_editor (alone system editor point keys).editor) }
{}

/// The ends of the settings' ranges.
pub fn known_settings()
    ensures standard { IsTrue (is_settings standard_settings) }
    ensures cells { IsTrue (is_settings (with_cells 1)) × IsTrue (is_settings (with_cells 39))
        × IsFalse (is_settings (with_cells 0)) × IsFalse (is_settings (with_cells 40)) }
    ensures page { IsTrue (is_settings (with_page 1)) × IsFalse (is_settings (with_page 0)) × IsFalse (is_settings (with_page 11)) }
    ensures cap { IsTrue (is_settings (with_cap 1)) × IsTrue (is_settings (with_cap 200_000))
        × IsFalse (is_settings (with_cap 0)) × IsFalse (is_settings (with_cap 200_001)) }
    ensures keys { IsTrue (is_settings (record standard_settings { selection = codes "asdfghjkl;" }))
        × IsFalse (is_settings (record standard_settings { selection = codes "123456789" }))
        × IsFalse (is_settings (record standard_settings { selection = codes "123456789 " })) }
    ensures doubled { IsFalse (is_settings (record standard_settings { selection = codes "1123456789" }))
        × IsFalse (is_settings (record standard_settings { selection = codes "1234567891" })) }
{}
