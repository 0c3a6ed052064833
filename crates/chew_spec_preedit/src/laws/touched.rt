//! Which breaks and choices an edit leaves, and where they stand then.

ghost use Rattle.std.specs.Prelude.{◌≡◌, ◌↔◌, ◌⊎◌, ◌+◌, ◌-◌, ◌<◌, ◌≤◌, ◌≢◌, ℕ, Contains, IsTrue, false, true};
ghost use Rattle.chew_spec_phrasing.specs.CanSegment.{interval_of};
ghost use Rattle.chew_spec_phrasing.specs.Usable.{Choice, choice_end, meets};
ghost use Rattle.chew_spec_preedit.specs.Buffer.{Buffer, choice_back, choice_on, is_buffer, is_choice_of};
ghost use Rattle.chew_spec_preedit.specs.Cell.{Cell};
ghost use Rattle.chew_spec_preedit.specs.Edit.{backspaced, broken, chosen, deleted, has_inside, inserted, mended, released};

/// An insert leaves the breaks before the cursor, and those behind it one further on; the choices that end at the cursor or
/// before it, and those that begin there or behind it one further on.
pub fn insert_moves_what_is_behind()
    ensures breaks { (had : Buffer) (cell : Cell) (place : ℕ) → Contains (inserted had cell).breaks place
        ↔ (((place < had.cursor) × Contains had.breaks place) ⊎ ((had.cursor + 1 < place) × Contains had.breaks (place - 1))) }
    ensures choices { (had : Buffer) (cell : Cell) (choice : Choice) → Contains (inserted had cell).choices choice
        ↔ (((choice_end choice ≤ had.cursor) × Contains had.choices choice) ⊎ ((had.cursor < choice.start) × Contains had.choices (choice_back 1 choice))) }
{}

/// A delete leaves the breaks before the cell, and those behind its end one further back; the choices that end before the cell,
/// and those that begin behind it one further back. A backspace does so with the cell before the cursor.
pub fn delete_moves_what_is_behind()
    ensures breaks { (had : Buffer) (place : ℕ) → Contains (deleted had).breaks place
        ↔ (((place < had.cursor) × Contains had.breaks place) ⊎ ((had.cursor < place) × Contains had.breaks (place + 1))) }
    ensures choices { (had : Buffer) (choice : Choice) → Contains (deleted had).choices choice
        ↔ (((choice_end choice ≤ had.cursor) × Contains had.choices choice) ⊎ ((had.cursor ≤ choice.start) × Contains had.choices (choice_on 1 choice))) }
    ensures back { (had : Buffer) → 0 < had.cursor → backspaced had ≡ deleted (record had { cursor = had.cursor - 1 }) }
{}

/// A release leaves the breaks behind the released cells and the choices that begin there, moved along.
pub fn release_moves_what_is_behind()
    ensures breaks { (had : Buffer) (count place : ℕ) → Contains (released count had).breaks place
        ↔ ((0 < place) × Contains had.breaks (place + count)) }
    ensures choices { (had : Buffer) (count : ℕ) (choice : Choice) → Contains (released count had).choices choice
        ↔ Contains had.choices (choice_on count choice) }
{}

/// A break at the cursor is set beside the others, and no choice has it strictly inside; or it alone goes.
pub fn toggle_sets_or_clears_one_break()
    ensures set { (had : Buffer) (place : ℕ) → Contains (broken had).breaks place ↔ ((place ≡ had.cursor) ⊎ Contains had.breaks place) }
    ensures choices { (had : Buffer) (choice : Choice) → Contains (broken had).choices choice
        ↔ (Contains had.choices choice × (has_inside had.cursor choice ≡ false)) }
    ensures cleared { (had : Buffer) (place : ℕ) → Contains (mended had).breaks place ↔ ((place ≢ had.cursor) × Contains had.breaks place) }
{}

/// A choice leaves itself and the choices that don't meet it, and no others.
pub fn choose_takes_away_what_it_meets()
    ensures choices { (had : Buffer) (choice other : Choice) → IsTrue (is_buffer had) → IsTrue (is_choice_of had.cells had.breaks choice)
        → Contains (chosen choice had).choices other
        ↔ ((other ≡ choice) ⊎ (Contains had.choices other × (meets (interval_of choice) other ≡ false))) }
{}
