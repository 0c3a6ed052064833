//! Laws of the best pieces of each run.

ghost use Rattle.std.specs.Prelude.{◌≡◌, ℕ, drop, IsTrue, length, List, slice_get, Some};
ghost use Rattle.std.specs.List.{list_all};
ghost use Rattle.chew_spec_syllable.specs.Row.{Row, is_row};
ghost use Rattle.chew_spec_dictionary.specs.Call.{Reply};
ghost use Rattle.chew_spec_preedit.specs.PlacedRun.{PlacedRun};
ghost use Rattle.chew_spec_editor.specs.Answers.{AreAnswers};
ghost use Rattle.chew_spec_editor.specs.Finish.{finish, hits_in};
ghost use Rattle.chew_spec_editor.specs.Invariant.{HasSingles, is_pending};
ghost use Rattle.chew_spec_editor.specs.Pending.{Pending, runs_asked};
ghost use Rattle.chew_spec_editor.specs.RunPieces.{AreBestIn};

/// The pieces that are shown in a run that was asked are its best segmentation: over the combined rows of what its own look-up
/// found, its breaks and its choices, no other segmentation exceeds it.
pub fn shown_pieces_are_unbeaten()
    ensures { (system : List Row) (pending : Pending) (replies : List Reply) (k : ℕ) (run : PlacedRun) (reply : Reply)
        → IsTrue (list_all is_row system) → HasSingles system pending.editor.buffer.cells → IsTrue (is_pending pending)
        → AreAnswers pending replies → slice_get (runs_asked pending) k ≡ Some run
        → slice_get (drop (length pending.changes) replies) k ≡ Some reply
        → AreBestIn system pending.editor.buffer run (hits_in reply) (finish system pending replies).editor.pieces }
{}
