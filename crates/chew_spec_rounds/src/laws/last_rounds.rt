//! When recovery gives the map after the whole history.

ghost use Rattle.std.specs.Prelude.{◌≡◌, ◌≢◌, ℕ, true, List, [], None};
ghost use Rattle.chew_spec_disk.specs.Disk.{DiskState};
ghost use Rattle.chew_spec_disk.specs.Moments.{NowLeaves};
ghost use Rattle.chew_spec_dictionary.specs.Dictionary.{Dictionary};
ghost use Rattle.chew_spec_dictionary.specs.History.{Entry, after, is_legal, own, start_of};
ghost use Rattle.chew_spec_slots.specs.Fits.{RecoversTo};
ghost use Rattle.chew_spec_rounds.specs.Front.{checkpoint_at, shape_after};
ghost use Rattle.chew_spec_rounds.specs.LastRounds.{IsAllSaved};
ghost use Rattle.chew_spec_rounds.specs.Round.{IsRound, Round, Saved};
ghost use Rattle.chew_spec_rounds.specs.Session.{IsSession};

/// Any disk before a round and after it.
pub trait AnyDisks {
    ghost before: { DiskState };

    ghost now: { DiskState };
}

/// Where nothing is left to save, recovery gives the map after the whole history, and its life, alone.
pub fn all_saved_is_whole<D: AnyDisks>()
    ensures { (start : Dictionary) (history : List Entry) (from : ℕ) (rounds : List Round) → is_legal (start_of start) history ≡ true
        → IsSession start history from D.now rounds → IsAllSaved start history
        → NowLeaves D.now (RecoversTo (checkpoint_at (after (start_of start) history))) }
{}

/// A saved round that found nothing waiting, and in which nobody but the keeper made an entry, leaves nothing to save.
pub fn a_last_round_saves_all<D: AnyDisks>()
    ensures { (start : Dictionary) (seen seen_then : List Entry) (number : ℕ)
        → is_legal (start_of start) seen_then ≡ true → (shape_after start seen).waiting ≡ None
        → (round : IsRound start seen seen_then D.before D.now (Saved number)) → ((who : ℕ) → who ≢ 0 → own round.more who ≡ []) → IsAllSaved start seen_then }
{}
