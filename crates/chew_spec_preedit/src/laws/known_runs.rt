//! Known runs.

ghost use Rattle.std.specs.Prelude.{◌≡◌, [], ◌∷◌, None, Some, false, true};
ghost use Rattle.chew_spec_phrasing.specs.Known.{be, piece};
ghost use Rattle.chew_spec_preedit.specs.Cell.{Sound, Symbol, is_between_sounds};
ghost use Rattle.chew_spec_preedit.specs.Known.{six_cells, test_at};
ghost use Rattle.chew_spec_preedit.specs.PlacedRun.{breaks_in, choices_in, placed, run_at, runs_of};

/// The runs of syllables that symbols part, each with the place of its first cell.
pub fn known_runs()
    ensures parted { runs_of (Sound 10268 ∷ Sound 8708 ∷ Symbol 33 ∷ Sound 107 ∷ [])
        ≡ record { start = 0; codes = 10268 ∷ 8708 ∷ [] } ∷ record { start = 3; codes = 107 ∷ [] } ∷ [] }
    ensures symbols { runs_of (Symbol 33 ∷ Symbol 32 ∷ []) ≡ [] }
    ensures behind { runs_of (Symbol 33 ∷ Symbol 32 ∷ Sound 107 ∷ Sound 8708 ∷ []) ≡ record { start = 2; codes = 107 ∷ 8708 ∷ [] } ∷ [] }
    ensures between { is_between_sounds (Sound 10268 ∷ Sound 8708 ∷ Symbol 33 ∷ []) 1 ≡ true }
    ensures before_symbol { is_between_sounds (Sound 10268 ∷ Sound 8708 ∷ Symbol 33 ∷ []) 2 ≡ false }
{}

/// What of a buffer's breaks, choices and pieces is a run's, by their places in it: a break strictly inside, a choice that
/// begins there.
pub fn known_parts_of_runs()
    ensures at { run_at six_cells 5 ≡ Some (record { start = 5; codes = 8708 ∷ [] }) }
    ensures last { run_at six_cells 3 ≡ Some (record { start = 0; codes = 10268 ∷ 8708 ∷ 10268 ∷ 8708 ∷ [] }) }
    ensures symbol { run_at six_cells 4 ≡ None }
    ensures past { run_at six_cells 6 ≡ None }
    ensures breaks { breaks_in (record { start = 3; codes = 8708 ∷ 8708 ∷ 8708 ∷ [] }) (2 ∷ 3 ∷ 4 ∷ 5 ∷ 6 ∷ []) ≡ 1 ∷ 2 ∷ [] }
    ensures choices { choices_in (record { start = 2; codes = 10268 ∷ 8708 ∷ [] }) (test_at 0 ∷ test_at 2 ∷ test_at 4 ∷ []) ≡ test_at 0 ∷ [] }
    ensures pieces { placed (record { start = 3; codes = 8708 ∷ [] }) (piece 0 be 9000 ∷ []) ≡ piece 3 be 9000 ∷ [] }
{}
