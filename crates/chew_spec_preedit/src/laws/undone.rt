//! What one edit undoes of another.

ghost use Rattle.std.specs.Prelude.{◌≡◌, ◌==◌, IsTrue, filter, not};
ghost use Rattle.chew_spec_preedit.specs.Buffer.{Buffer, is_buffer};
ghost use Rattle.chew_spec_preedit.specs.Cell.{Cell};
ghost use Rattle.chew_spec_preedit.specs.Edit.{backspaced, break_toggled, has_inside, inserted};

/// After an insert and a backspace the cells and the cursor are as they were, and so are the breaks and choices, but for those
/// that have the place: a break there, and a choice that has it strictly inside.
pub fn backspace_undoes_insert()
    ensures same { (had : Buffer) (cell : Cell) → IsTrue (is_buffer had) → backspaced (inserted had cell)
        ≡ record had {
          breaks = filter (λ at. not (at == had.cursor)) had.breaks;
          choices = filter (λ choice. not (has_inside had.cursor choice)) had.choices;
        } }
{}

/// A break that is toggled twice is there, or is not, as before, and so are the others.
pub fn toggle_undoes_toggle()
    ensures breaks { (had : Buffer) → IsTrue (is_buffer had) → (break_toggled (break_toggled had)).breaks ≡ had.breaks }
{}
