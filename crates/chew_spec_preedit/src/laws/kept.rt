//! What every edit keeps.

ghost use Rattle.std.specs.Prelude.{◌≡◌, ℕ, ◌<◌, ◌≤◌, IsTrue, false, length};
ghost use Rattle.chew_spec_phrasing.specs.Usable.{Choice, choice_end};
ghost use Rattle.chew_spec_preedit.specs.Buffer.{Buffer, empty_buffer, is_buffer, is_choice_of};
ghost use Rattle.chew_spec_preedit.specs.Cell.{Cell, is_cell};
ghost use Rattle.chew_spec_preedit.specs.Edit.{backspaced, break_toggled, can_break, chosen, deleted, emptied, inserted, is_full, moved_to, released};

/// Where it may be made, each edit of a buffer leaves a buffer.
pub fn edits_leave_a_buffer()
    ensures empty { (limit : ℕ) → 1 ≤ limit → limit ≤ 39 → IsTrue (is_buffer (empty_buffer limit)) }
    ensures insert { (had : Buffer) (cell : Cell) → IsTrue (is_buffer had) → is_full had ≡ false → IsTrue (is_cell cell)
        → IsTrue (is_buffer (inserted had cell)) }
    ensures delete { (had : Buffer) → IsTrue (is_buffer had) → had.cursor < length had.cells → IsTrue (is_buffer (deleted had)) }
    ensures backspace { (had : Buffer) → IsTrue (is_buffer had) → 0 < had.cursor → IsTrue (is_buffer (backspaced had)) }
    ensures move_to { (had : Buffer) (place : ℕ) → IsTrue (is_buffer had) → place ≤ length had.cells
        → IsTrue (is_buffer (moved_to place had)) }
    ensures toggle { (had : Buffer) → IsTrue (is_buffer had) → IsTrue (can_break had) → IsTrue (is_buffer (break_toggled had)) }
    ensures choose { (had : Buffer) (choice : Choice) → IsTrue (is_buffer had) → IsTrue (is_choice_of had.cells had.breaks choice)
        → IsTrue (is_buffer (chosen choice had)) }
    ensures release { (had : Buffer) (count : ℕ) → IsTrue (is_buffer had) → count ≤ length had.cells
        → IsTrue (is_buffer (released count had)) }
    ensures emptied { (had : Buffer) → IsTrue (is_buffer had) → IsTrue (is_buffer (emptied had)) }
{}
