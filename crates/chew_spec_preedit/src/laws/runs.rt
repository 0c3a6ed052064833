//! What runs and choices are.

ghost use Rattle.std.specs.Prelude.{◌≡◌, ◌⊎◌, ◌-◌, ◌<◌, ◌≤◌, ℕ, Contains, IsTrue, List, drop, false, length, map, nat_lt, take, true};
ghost use Rattle.chew_spec_phrasing.specs.Usable.{Choice, choice_end};
ghost use Rattle.chew_spec_preedit.specs.Buffer.{Buffer, is_buffer};
ghost use Rattle.chew_spec_preedit.specs.Cell.{Cell, Sound, has_sound};
ghost use Rattle.chew_spec_preedit.specs.InTurn.{is_in_turn};
ghost use Rattle.chew_spec_preedit.specs.PlacedRun.{PlacedRun, is_in_run, run_end, runs_of};

/// A run is a longest stretch of syllables: what stands right before it or behind it is none. Each syllable is in a run, and
/// the runs come from left to right and don't touch.
pub fn runs_are_longest_stretches()
    ensures some { (cells : List Cell) (run : PlacedRun) → Contains (runs_of cells) run → 0 < length run.codes }
    ensures codes { (cells : List Cell) (run : PlacedRun) → Contains (runs_of cells) run
        → map Sound run.codes ≡ take (length run.codes) (drop run.start cells) }
    ensures begins { (cells : List Cell) (run : PlacedRun) → Contains (runs_of cells) run → 0 < run.start
        → has_sound cells (run.start - 1) ≡ false }
    ensures ends { (cells : List Cell) (run : PlacedRun) → Contains (runs_of cells) run → has_sound cells (run_end run) ≡ false }
    ensures each { (cells : List Cell) (place : ℕ) → has_sound cells place ≡ true
        → (run : PlacedRun) × Contains (runs_of cells) run × (is_in_run run place ≡ true) }
    ensures apart { (cells : List Cell) → is_in_turn (λ run later. nat_lt (run_end run) later.start) (runs_of cells) ≡ true }
{}

/// A choice of a buffer lies in one run, no break is strictly inside it, and no two choices have a cell of each other.
pub fn choices_lie_in_runs_and_apart()
    ensures within { (had : Buffer) (choice : Choice) → IsTrue (is_buffer had) → Contains had.choices choice
        → (run : PlacedRun) × Contains (runs_of had.cells) run × (run.start ≤ choice.start) × (choice_end choice ≤ run_end run) }
    ensures unbroken { (had : Buffer) (choice : Choice) (place : ℕ) → IsTrue (is_buffer had) → Contains had.choices choice
        → Contains had.breaks place → (place ≤ choice.start) ⊎ (choice_end choice ≤ place) }
    ensures apart { (had : Buffer) (choice other : Choice) → IsTrue (is_buffer had) → Contains had.choices choice → Contains had.choices other
        → (choice ≡ other) ⊎ ((choice_end choice ≤ other.start) ⊎ (choice_end other ≤ choice.start)) }
{}
