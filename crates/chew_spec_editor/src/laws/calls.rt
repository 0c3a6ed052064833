//! Laws of the calls that talks make.

ghost use Rattle.std.specs.Prelude.{◌≡◌, ◌++◌, ℕ, IsTrue, List, Some, slice_get};
ghost use Rattle.std.specs.List.{list_all};
ghost use Rattle.chew_spec_syllable.specs.Row.{Row, is_row};
ghost use Rattle.chew_spec_dictionary.specs.Call.{Call, Reply};
ghost use Rattle.chew_spec_dictionary.specs.History.{is_user_call};
ghost use Rattle.chew_spec_text.specs.KeyStroke.{KeyStroke, is_key_stroke};
ghost use Rattle.chew_spec_editor.specs.Answers.{AreFoundBefore};
ghost use Rattle.chew_spec_editor.specs.Editor.{Editor};
ghost use Rattle.chew_spec_editor.specs.Invariant.{is_editor, is_settings};
ghost use Rattle.chew_spec_editor.specs.Keys.{calls_asked, press};
ghost use Rattle.chew_spec_editor.specs.Settings.{Settings};
ghost use Rattle.chew_spec_editor.specs.Talk.{talk};

/// Where the system's rows are rows, each call that a key asks is one that an editor may make; and so is each call of a talk,
/// and of the key behind it, where the look-ups before that call had what a dictionary finds as their replies.
pub fn editors_make_their_calls()
    ensures asked { (system : List Row) (editor : Editor) (key : KeyStroke) → IsTrue (list_all is_row system) → IsTrue (is_editor editor)
        → IsTrue (is_key_stroke key) → IsTrue (list_all is_user_call (calls_asked (press system editor key))) }
    ensures talk { (system : List Row) (settings : Settings) (keys : List KeyStroke) (replies : List Reply) (k : ℕ) (call : Call)
        → IsTrue (list_all is_row system) → IsTrue (is_settings settings) → IsTrue (list_all is_key_stroke keys)
        → AreFoundBefore k (talk system settings keys replies).calls replies → slice_get (talk system settings keys replies).calls k ≡ Some call
        → IsTrue (is_user_call call) }
    ensures next { (system : List Row) (settings : Settings) (keys : List KeyStroke) (replies : List Reply) (next : KeyStroke) (k : ℕ) (call : Call)
        → IsTrue (list_all is_row system) → IsTrue (is_settings settings) → IsTrue (list_all is_key_stroke keys) → IsTrue (is_key_stroke next)
        → AreFoundBefore k ((talk system settings keys replies).calls ++ calls_asked (press system (talk system settings keys replies).editor next)) replies
        → slice_get ((talk system settings keys replies).calls ++ calls_asked (press system (talk system settings keys replies).editor next)) k ≡ Some call
        → IsTrue (is_user_call call) }
{}
