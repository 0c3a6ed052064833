//! Laws of the passes of a new cell.

ghost use Rattle.std.specs.Prelude.{◌≡◌, ℕ, ◌<◌, [], length, All, Some};
ghost use Rattle.std.specs.List.{slice_get};
ghost use Rattle.chew_spec_cell.specs.Pass.{Cell, fresh_pass, new_passes};

/// There are as many as were made, all of this cell, and each stands at its number and has seen nothing.
pub fn passes_of_a_new_cell()
    ensures count { (cell : Cell) (count : ℕ) → length (new_passes cell count) ≡ count }
    ensures ours { (cell : Cell) (count : ℕ) → All (λ p. p.cell ≡ cell) (new_passes cell count) }
    ensures each { (cell : Cell) (count who : ℕ) → who < count
        → slice_get (new_passes cell count) who ≡ Some (fresh_pass cell who) }
{}
