//! A round that begins in step leaves in step, whatever it answers, and leaves of the disk what a round does.

ghost use Rattle.std.specs.Prelude.{◌≡◌, ℕ, ◌+◌, true, List, [], ◌∷◌, ◌++◌, Some, None, Ok, Err};
ghost use Rattle.chew_spec_disk.specs.Disk.{DiskState};
ghost use Rattle.chew_spec_dictionary.specs.Call.{Freeze, Install};
ghost use Rattle.chew_spec_dictionary.specs.Dictionary.{Dictionary};
ghost use Rattle.chew_spec_dictionary.specs.History.{Entry, calls_of, is_legal, start_of};
ghost use Rattle.chew_spec_slots.specs.Fits.{Fits};
ghost use Rattle.chew_spec_slots.specs.Keep.{Keep, acknowledged_state, left_state};
ghost use Rattle.chew_spec_slots.specs.Slot.{Saved as SavedSlot};
ghost use Rattle.chew_spec_rounds.specs.Front.{front_checkpoint, shape_after};
ghost use Rattle.chew_spec_rounds.specs.InStep.{IsInStep};
ghost use Rattle.chew_spec_rounds.specs.Round.{DiskFault, IsRound, KeepersCalls, Round, Saved, saved_number};
ghost use Rattle.chew_spec_rounds.specs.Session.{GrowsByOthers};
ghost use Rattle.chew_spec_rounds.specs.WriteSteps.{WritesCheckpoint};

/// Any disk before a checkpoint is written, and after.
pub trait AnyDisks {
    ghost before: { DiskState };

    ghost now: { DiskState };
}

/// What recovery found is in step with a history that begins from what it found, and stays in step while others than the
/// keeper add entries.
pub fn in_step_from_the_start<D: AnyDisks>()
    ensures found { (keep : Keep) (start : Dictionary) → Fits keep D.now → acknowledged_state keep D.now ≡ record { life = start.life; rows = start.pairs }
        → left_state keep D.now ≡ None → IsInStep keep D.now start [] }
    ensures others { (keep : Keep) (start : Dictionary) (seen now : List Entry) → is_legal (start_of start) now ≡ true → IsInStep keep D.now start seen
        → GrowsByOthers seen now → IsInStep keep D.now start now }
{}

/// A round that writes nothing, for want of memory or since the seq is spent, whether it froze or not.
pub fn unwritten_rounds<D: AnyDisks>()
    ensures in_step { (keep : Keep) (start : Dictionary) (seen more : List Entry) (round : Round) → is_legal (start_of start) (seen ++ more) ≡ true
        → IsInStep keep D.now start seen → saved_number round ≡ None → KeepersCalls round (calls_of more 0) → IsInStep keep D.now start (seen ++ more) }
    ensures round { (keep : Keep) (start : Dictionary) (seen more : List Entry) (round : Round) → is_legal (start_of start) (seen ++ more) ≡ true
        → IsInStep keep D.now start seen → saved_number round ≡ None
        → KeepersCalls round (calls_of more 0) → IsRound start seen (seen ++ more) D.now D.now round }
{}

/// A round that fails in writing the map after the entries up to what waits.
pub fn failed_rounds<D: AnyDisks, T, E>()
    ensures in_step { (keep keep_then : Keep) (start : Dictionary) (seen more : List Entry) (number : ℕ) (saved : SavedSlot) (failed : E)
        → is_legal (start_of start) (seen ++ more) ≡ true → IsInStep keep D.before start seen → calls_of more 0 ≡ Freeze ∷ []
        → (shape_after start (seen ++ more)).waiting ≡ Some number → saved.checkpoint ≡ front_checkpoint start (seen ++ more) number
        → WritesCheckpoint {T = T} keep D.before keep_then D.now saved (Err failed) → IsInStep keep_then D.now start (seen ++ more) }
    ensures round { (keep keep_then : Keep) (start : Dictionary) (seen more : List Entry) (number step : ℕ) (saved : SavedSlot) (failed : E)
        → is_legal (start_of start) (seen ++ more) ≡ true → IsInStep keep D.before start seen → calls_of more 0 ≡ Freeze ∷ []
        → (shape_after start (seen ++ more)).waiting ≡ Some number → saved.checkpoint ≡ front_checkpoint start (seen ++ more) number
        → WritesCheckpoint {T = T} keep D.before keep_then D.now saved (Err failed) → IsRound start seen (seen ++ more) D.before D.now (DiskFault step) }
{}

/// A round that writes it, and then installs it.
pub fn saved_rounds<D: AnyDisks, T, E>()
    ensures in_step { (keep keep_then : Keep) (start : Dictionary) (seen more rest : List Entry) (number : ℕ) (saved : SavedSlot) (done : T)
        → is_legal (start_of start) ((seen ++ more) ++ rest) ≡ true → IsInStep keep D.before start seen → calls_of more 0 ≡ Freeze ∷ []
        → (shape_after start (seen ++ more)).waiting ≡ Some number → saved.checkpoint ≡ front_checkpoint start (seen ++ more) number
        → calls_of rest 0 ≡ Install number ∷ []
        → WritesCheckpoint {E = E} keep D.before keep_then D.now saved (Ok done) → IsInStep keep_then D.now start ((seen ++ more) ++ rest) }
    ensures round { (keep keep_then : Keep) (start : Dictionary) (seen more rest : List Entry) (number : ℕ) (saved : SavedSlot) (done : T)
        → is_legal (start_of start) ((seen ++ more) ++ rest) ≡ true → IsInStep keep D.before start seen → calls_of more 0 ≡ Freeze ∷ []
        → (shape_after start (seen ++ more)).waiting ≡ Some number → saved.checkpoint ≡ front_checkpoint start (seen ++ more) number
        → calls_of rest 0 ≡ Install number ∷ []
        → WritesCheckpoint {E = E} keep D.before keep_then D.now saved (Ok done) → IsRound start seen ((seen ++ more) ++ rest) D.before D.now (Saved number) }
{}
