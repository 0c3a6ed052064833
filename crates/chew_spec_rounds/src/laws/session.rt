//! The front that recovery gives never gets shorter, whatever rounds fail: an induction over the rounds.

ghost use Rattle.std.specs.Prelude.{◌≡◌, ℕ, true, List, [], ◌∷◌, ◌++◌, length};
ghost use Rattle.chew_spec_disk.specs.Disk.{DiskState, IsDisk};
ghost use Rattle.chew_spec_disk.specs.Moments.{NowLeaves};
ghost use Rattle.chew_spec_dictionary.specs.Dictionary.{Dictionary};
ghost use Rattle.chew_spec_dictionary.specs.History.{Entry, calls_of, is_legal, start_of};
ghost use Rattle.chew_spec_rounds.specs.Front.{RecoversToFront};
ghost use Rattle.chew_spec_slots.specs.Keep.{Keep};
ghost use Rattle.chew_spec_rounds.specs.InStep.{IsInStep};
ghost use Rattle.chew_spec_rounds.specs.Round.{AreKeepersCalls, IsRound, Round};
ghost use Rattle.chew_spec_rounds.specs.Session.{AreRounds, GrowsByOthers, IsSession, OnlyReads};

/// Any disk before a round and after it.
pub trait AnyDisks {
    ghost before: { DiskState };

    ghost now: { DiskState };
}

/// Any disks and histories, those with which each round of a list begins, and those that the last one leaves.
pub trait AnyRounds {
    ghost disks: { ℕ → DiskState };

    ghost seen: { ℕ → List Entry };
}

/// A session begins where the slots recover to the map at the start, as they do where what is known of them is in step; it
/// goes on by any calls that only read, by any round, saved or not, and by any entries of others than the keeper.
pub fn sessions_go_on<D: AnyDisks>()
    ensures begins { (start : Dictionary) → IsDisk D.now → NowLeaves D.now (RecoversToFront start [] 0) → IsSession start [] D.now.moment D.now [] }
    ensures in_step { (keep : Keep) (start : Dictionary) → IsInStep keep D.now start [] → IsSession start [] D.now.moment D.now [] }
    ensures reads { (start : Dictionary) (history : List Entry) (from : ℕ) (rounds : List Round) → is_legal (start_of start) history ≡ true → IsDisk D.before
        → IsSession start history from D.before rounds → OnlyReads D.before D.now → IsSession start history from D.now rounds }
    ensures round { (start : Dictionary) (seen seen_then : List Entry) (from : ℕ) (rounds : List Round) (round : Round)
        → is_legal (start_of start) seen_then ≡ true
        → IsSession start seen from D.before rounds → IsRound start seen seen_then D.before D.now round
        → IsSession start seen_then from D.now (rounds ++ round ∷ []) }
    ensures others { (start : Dictionary) (seen history : List Entry) (from : ℕ) (rounds : List Round) → is_legal (start_of start) history ≡ true
        → IsSession start seen from D.now rounds → GrowsByOthers seen history → IsSession start history from D.now rounds }
{}

/// Any rounds one after the other are a session, over the whole history that the keeper has seen a front of: the front that
/// recovery gives never gets shorter.
pub fn rounds_never_shorten<R: AnyRounds>()
    ensures { (start : Dictionary) (history : List Entry) (rounds : List Round) → is_legal (start_of start) history ≡ true
        → IsDisk (R.disks 0) → NowLeaves (R.disks 0) (RecoversToFront start [] 0) → R.seen 0 ≡ []
        → AreRounds start R.seen R.disks 0 rounds → GrowsByOthers (R.seen (length rounds)) history
        → IsSession start history (R.disks 0).moment (R.disks (length rounds)) rounds }
{}

/// The keeper's calls in the whole history are those of the rounds, round by round.
pub fn round_by_round<R: AnyRounds>()
    ensures { (start : Dictionary) (history : List Entry) (rounds : List Round) → R.seen 0 ≡ [] → AreRounds start R.seen R.disks 0 rounds
        → GrowsByOthers (R.seen (length rounds)) history → AreKeepersCalls rounds (calls_of history 0) }
{}
