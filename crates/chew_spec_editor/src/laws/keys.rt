//! Laws of what keys do.

ghost use Rattle.std.specs.Prelude.{◌≡◌, ◌≢◌, ℕ, ◌+◌, ◌-◌, ◌<◌, [], List, IsFalse, IsTrue, length, Some, None};
ghost use Rattle.chew_spec_syllable.specs.Row.{Row};
ghost use Rattle.chew_spec_layout.specs.Step.{Refused, NotMine};
ghost use Rattle.chew_spec_layout.specs.Layout.{feed, holds};
ghost use Rattle.chew_spec_dictionary.specs.Call.{Reply};
ghost use Rattle.chew_spec_preedit.specs.Edit.{break_toggled, can_break};
ghost use Rattle.chew_spec_preedit.specs.Buffer.{Buffer, is_buffer};
ghost use Rattle.chew_spec_preedit.specs.Window.{Window};
ghost use Rattle.chew_spec_text.specs.KeyStroke.{KeyStroke, Char, Left, Right, Home, End, Tab};
ghost use Rattle.chew_spec_text.specs.Line.{Line, Bell};
ghost use Rattle.chew_spec_editor.specs.Editor.{Editor};
ghost use Rattle.chew_spec_editor.specs.Finish.{finish};
ghost use Rattle.chew_spec_editor.specs.Keys.{press};
ghost use Rattle.chew_spec_editor.specs.Pending.{Pending, calls_of};
ghost use Rattle.chew_spec_editor.specs.Press.{Ask, Done, bell, edit, go_to};
ghost use Rattle.chew_spec_editor.specs.Rung.{layout_rung};

/// A key that rings commits nothing and changes nothing, but that a whole syllable which isn't taken is dropped from the
/// layout.
pub fn bells_change_nothing()
    ensures plain { (system : List Row) (editor after : Editor) (key : KeyStroke) (line : Line) → editor.window ≡ None
        → press system editor key ≡ Done after line → line.note ≡ Bell → after ≡ record editor { layout = layout_rung editor key } }
    ensures window { (system : List Row) (editor after : Editor) (key : KeyStroke) (line : Line) (window : Window) → editor.window ≡ Some window
        → press system editor key ≡ Done after line → line.note ≡ Bell → after ≡ editor }
    ensures commit { (system : List Row) (editor after : Editor) (key : KeyStroke) (line : Line)
        → press system editor key ≡ Done after line → line.note ≡ Bell → line.commit ≡ [] }
    ensures asked { (system : List Row) (editor : Editor) (key : KeyStroke) (pending : Pending) (replies : List Reply)
        → press system editor key ≡ Ask pending → (finish system pending replies).line.note ≢ Bell }
{}

/// A key that the layout refuses rings and changes nothing, and so does one that isn't the layout's while something is held.
pub fn refused_keys_ring()
    ensures refused { (system : List Row) (editor : Editor) (byte : ℕ) → editor.window ≡ None
        → (feed editor.layout byte).step ≡ Refused → press system editor (Char byte) ≡ bell editor }
    ensures not_mine { (system : List Row) (editor : Editor) (byte : ℕ) → editor.window ≡ None → IsTrue (holds editor.layout)
        → (feed editor.layout byte).step ≡ NotMine → press system editor (Char byte) ≡ bell editor }
{}

/// A key that asks has a call.
pub fn keys_that_ask_have_calls()
    ensures { (system : List Row) (editor : Editor) (key : KeyStroke) (pending : Pending)
        → press system editor key ≡ Ask pending → 0 < length (calls_of pending) }
{}

/// While nothing is held and no window is open, a move changes the cursor alone, and rings where there is no way.
pub fn moves_change_the_cursor()
    ensures left { (system : List Row) (editor : Editor) → editor.window ≡ None → IsFalse (holds editor.layout) → 0 < editor.buffer.cursor
        → press system editor Left ≡ go_to editor (editor.buffer.cursor - 1) }
    ensures right { (system : List Row) (editor : Editor) → editor.window ≡ None → IsFalse (holds editor.layout)
        → editor.buffer.cursor < length editor.buffer.cells → press system editor Right ≡ go_to editor (editor.buffer.cursor + 1) }
    ensures home { (system : List Row) (editor : Editor) → editor.window ≡ None → IsFalse (holds editor.layout)
        → press system editor Home ≡ go_to editor 0 }
    ensures end { (system : List Row) (editor : Editor) → editor.window ≡ None → IsFalse (holds editor.layout)
        → press system editor End ≡ go_to editor (length editor.buffer.cells) }
    ensures start { (system : List Row) (editor : Editor) → editor.window ≡ None → editor.buffer.cursor ≡ 0 → press system editor Left ≡ bell editor }
    ensures last { (system : List Row) (editor : Editor) → editor.window ≡ None → editor.buffer.cursor ≡ length editor.buffer.cells
        → press system editor Right ≡ bell editor }
{}

/// Tab sets a break or clears it, and twice leaves the breaks as they were.
pub fn tabs_set_and_clear()
    ensures key { (system : List Row) (editor : Editor) → editor.window ≡ None → IsFalse (holds editor.layout) → IsTrue (can_break editor.buffer)
        → press system editor Tab ≡ edit system editor (break_toggled editor.buffer) }
    ensures twice { (buffer : Buffer) → IsTrue (is_buffer buffer) → (break_toggled (break_toggled buffer)).breaks ≡ buffer.breaks }
{}
