//! Laws of the turn of a key.

ghost use Rattle.std.specs.Prelude.{◌≡◌, ◌++◌, ◌≤◌, is_some, length, List, nat_le, Some};
ghost use Rattle.chew_spec_syllable.specs.Row.{Row};
ghost use Rattle.chew_spec_dictionary.specs.Call.{Reply};
ghost use Rattle.chew_spec_text.specs.KeyStroke.{KeyStroke};
ghost use Rattle.chew_spec_editor.specs.Editor.{Editor, line_of};
ghost use Rattle.chew_spec_editor.specs.Keys.{calls_asked, press};
ghost use Rattle.chew_spec_editor.specs.Talk.{Turn, turn_of};

/// The calls of a key are those that it asks when it is pressed: no reply to one of them changes which there are.
pub fn calls_are_fixed()
    ensures asked { (system : List Row) (editor : Editor) (key : KeyStroke) (replies : List Reply) (turn : Turn)
        → turn_of system editor key replies ≡ Some turn → turn.calls ≡ calls_asked (press system editor key) }
    ensures same { (system : List Row) (editor : Editor) (key : KeyStroke) (replies others : List Reply) (turn other : Turn)
        → turn_of system editor key replies ≡ Some turn → turn_of system editor key others ≡ Some other
        → turn.calls ≡ other.calls }
{}

/// A key has its turn exactly where there is a reply to each of its calls, and further replies don't change it.
pub fn turn_needs_replies()
    ensures there { (system : List Row) (editor : Editor) (key : KeyStroke) (replies : List Reply)
        → is_some (turn_of system editor key replies)
        ≡ nat_le (length (calls_asked (press system editor key))) (length replies) }
    ensures further { (system : List Row) (editor : Editor) (key : KeyStroke) (replies more : List Reply) (turn : Turn)
        → turn_of system editor key replies ≡ Some turn → turn_of system editor key (replies ++ more) ≡ Some turn }
{}

/// The line of a key shows the editor that the key leaves.
pub fn line_shows_the_editor()
    ensures { (system : List Row) (editor : Editor) (key : KeyStroke) (replies : List Reply) (turn : Turn)
        → turn_of system editor key replies ≡ Some turn → turn.line ≡ line_of turn.editor turn.line.commit turn.line.note }
{}
