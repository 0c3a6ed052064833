//! What a round leaves of the history's shape.

ghost use Rattle.std.specs.Prelude.{◌≡◌, ℕ, true, List, [], ◌∷◌, ◌++◌, Some, None};
ghost use Rattle.chew_spec_disk.specs.Disk.{DiskState};
ghost use Rattle.chew_spec_disk.specs.Moments.{AlwaysLeft, NowLeaves};
ghost use Rattle.chew_spec_dictionary.specs.Call.{Freeze, Install};
ghost use Rattle.chew_spec_dictionary.specs.Dictionary.{Dictionary};
ghost use Rattle.chew_spec_dictionary.specs.History.{Entry, calls_of, is_legal, start_of};
ghost use Rattle.chew_spec_rounds.specs.Front.{RecoversToFront, shape_after};
ghost use Rattle.chew_spec_rounds.specs.Round.{DiskFault, IsRound, Round, Saved, saved_number};

/// Any disk before a round and after it.
pub trait AnyDisks {
    ghost before: { DiskState };

    ghost now: { DiskState };
}

/// A saved round installs its number, after which nothing waits. Any other leaves what is installed, and a snapshot that
/// waited goes on waiting under the same number. After a fault of the disk a snapshot waits.
pub fn what_rounds_install<D: AnyDisks>()
    ensures saved { (start : Dictionary) (seen seen_then : List Entry) (number : ℕ) → is_legal (start_of start) seen_then ≡ true
        → IsRound start seen seen_then D.before D.now (Saved number) → shape_after start seen_then ≡ record { installed = number; waiting = None } }
    ensures same { (start : Dictionary) (seen seen_then : List Entry) (round : Round) → is_legal (start_of start) seen_then ≡ true → saved_number round ≡ None
        → IsRound start seen seen_then D.before D.now round → (shape_after start seen_then).installed ≡ (shape_after start seen).installed }
    ensures waits { (start : Dictionary) (seen seen_then : List Entry) (round : Round) (number : ℕ)
        → is_legal (start_of start) seen_then ≡ true → saved_number round ≡ None
        → IsRound start seen seen_then D.before D.now round → (shape_after start seen).waiting ≡ Some number
        → (shape_after start seen_then).waiting ≡ Some number }
    ensures frozen { (start : Dictionary) (seen seen_then : List Entry) (step : ℕ) → is_legal (start_of start) seen_then ≡ true
        → IsRound start seen seen_then D.before D.now (DiskFault step) → (number : ℕ) × ((shape_after start seen_then).waiting ≡ Some number) }
{}

/// Where nothing waits after a round that saved nothing, recovery gave the acknowledged map alone, all the while.
pub fn only_what_was_acknowledged<D: AnyDisks>()
    ensures { (start : Dictionary) (seen seen_then : List Entry) (round : Round) → saved_number round ≡ None
        → IsRound start seen seen_then D.before D.now round → (shape_after start seen_then).waiting ≡ None
        → AlwaysLeft D.before.moment D.now (RecoversToFront start seen_then (shape_after start seen).installed) }
{}

/// The number that a round saves is the one that waits after the round's freeze, right before its install.
pub fn the_number_that_waits()
    ensures { (start : Dictionary) (frozen installs : List Entry) (number : ℕ) → is_legal (start_of start) (frozen ++ installs) ≡ true
        → calls_of installs 0 ≡ Install number ∷ [] → (shape_after start frozen).waiting ≡ Some number }
{}
