//! Laws and known values of the rounds of a session.

ghost use Rattle.std.specs.Prelude.{◌≡◌, ◌≤◌, ℕ, ◌+◌, All, IsTrue, List, [], ◌∷◌, drop, is_some, length, true};
ghost use Rattle.chew_spec_dictionary.specs.Call.{Install};
ghost use Rattle.chew_spec_dictionary.specs.Call as calls;
ghost use Rattle.chew_spec_dictionary.specs.Dictionary.{Dictionary};
ghost use Rattle.chew_spec_dictionary.specs.History.{Entry, calls_of, is_legal, start_of};
ghost use Rattle.chew_spec_rounds.specs.Known.{by_keeper, failed_once, learns, learnt_between, looks, nothing};
ghost use Rattle.chew_spec_rounds.specs.LastRounds.{IsAllSaved};
ghost use Rattle.chew_spec_rounds.specs.Round.{AreKeepersCalls, DiskFault, NoMemory, Round, Saved, SeqSpent, saved_number};
ghost use Rattle.chew_spec_session.specs.LastRounds.{AreRounds};

/// The keeper's calls in the whole history are those of the rounds, one after the other. At most two rounds follow those of
/// the worker. And where all these are saved, nothing is left to save.
pub fn rounds_of_a_session()
    ensures calls { (start : Dictionary) (asked : ℕ) (journal : List Entry) (rounds : List Round) → AreRounds start asked journal rounds
        → AreKeepersCalls rounds (calls_of journal 0) }
    ensures worker { (start : Dictionary) (asked : ℕ) (journal : List Entry) (rounds : List Round) → AreRounds start asked journal rounds
        → asked ≤ length rounds }
    ensures two { (start : Dictionary) (asked : ℕ) (journal : List Entry) (rounds : List Round) → AreRounds start asked journal rounds
        → length rounds ≤ asked + 2 }
    ensures saved { (start : Dictionary) (asked : ℕ) (journal : List Entry) (rounds : List Round) → is_legal (start_of start) journal ≡ true
        → AreRounds start asked journal rounds → All (λ r. IsTrue (is_some (saved_number r))) (drop asked rounds) → IsAllSaved start journal }
{}

/// No round where nothing was learnt; one that saves what was; one of the worker that froze before a learn, and a last one
/// that saves it; and one that could not be saved, after which no other is made.
pub fn known_sessions()
    ensures none { AreRounds nothing 0 (looks ∷ []) [] }
    ensures one { AreRounds nothing 0 (learns ∷ (by_keeper calls.Freeze ∷ (by_keeper (Install 1) ∷ []))) (Saved 1 ∷ []) }
    ensures between { AreRounds nothing 1 learnt_between (Saved 2 ∷ (Saved 5 ∷ [])) }
    ensures failed { AreRounds nothing 0 (learns ∷ (by_keeper calls.Freeze ∷ [])) (DiskFault 1 ∷ []) }
    ensures waits { AreRounds nothing 1 failed_once (DiskFault 1 ∷ (DiskFault 6 ∷ [])) }
{}

/// A last round that is left out, where a learn came last and where a snapshot waits; one that is made though nothing was
/// learnt; one after another that wasn't saved; a worker's round that is left out.
pub fn wrong_sessions()
    ensures left_out { AreRounds nothing 0 (learns ∷ []) [] → ⊥ }
    ensures still_waits { AreRounds nothing 1 (learns ∷ (by_keeper calls.Freeze ∷ [])) (DiskFault 1 ∷ []) → ⊥ }
    ensures needless { AreRounds nothing 0 (looks ∷ (by_keeper calls.Freeze ∷ (by_keeper (Install 1) ∷ []))) (Saved 1 ∷ []) → ⊥ }
    ensures after_fault { (start : Dictionary) (journal : List Entry) (round : Round) (step : ℕ)
        → AreRounds start 0 journal (DiskFault step ∷ (round ∷ [])) → ⊥ }
    ensures after_no_memory { (start : Dictionary) (journal : List Entry) (round : Round) → AreRounds start 0 journal (NoMemory ∷ (round ∷ [])) → ⊥ }
    ensures after_spent { (start : Dictionary) (journal : List Entry) (round : Round) (seq : ℕ) → AreRounds start 0 journal (SeqSpent seq ∷ (round ∷ [])) → ⊥ }
    ensures not_asked { AreRounds nothing 1 (looks ∷ []) [] → ⊥ }
{}
