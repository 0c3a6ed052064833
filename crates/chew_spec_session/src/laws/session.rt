//! Laws and known values of sessions.

ghost use Rattle.std.specs.Prelude.{◌≡◌, ◌≤◌, ◌^◌, ◌-◌, ℕ, List, [], ◌∷◌, ◌++◌, false, length, true};
ghost use Rattle.chew_spec_text.specs.KeyStroke.{KeyStroke};
ghost use Rattle.chew_spec_outside.specs.Faults.{Rose};
ghost use Rattle.chew_spec_rounds.specs.Round.{DiskFault, NoMemory, Round, Saved, SeqSpent};
ghost use Rattle.chew_spec_rounds.specs.Seq.{CountSeqs, last_seq};
ghost use Rattle.chew_spec_session.specs.Context.{Basis};
ghost use Rattle.chew_spec_session.specs.LastRounds.{disk_faults};
ghost use Rattle.chew_spec_session.specs.Session.{ContextEnd, CountFrom, Ended, IsSession, RoseBy, memory_wanted};

/// Rounds that count the seq up one after the other do so from the first. From a seq that leaves room for 66 rounds none of a
/// session with at most 64 of the worker's is spent.
pub fn seqs_of_a_session()
    ensures counted { (seqs : ℕ → ℕ) (rounds : List Round) → CountSeqs seqs 0 rounds → CountFrom (seqs 0) rounds }
    ensures room { (basis : Basis) (contexts : List (List KeyStroke)) (asked seq : ℕ) (ended : Ended) → IsSession basis contexts asked seq ended
        → asked ≤ 64 → seq ≤ 2 ^ 64 - 67 → (before later : List Round) (number : ℕ) → ended.rounds ≡ before ++ SeqSpent number ∷ later → ⊥ }
    ensures spent { CountFrom last_seq (SeqSpent last_seq ∷ []) }
    ensures other_number { CountFrom last_seq (SeqSpent 1 ∷ []) → ⊥ }
    ensures goes_on { CountFrom last_seq (Saved 1 ∷ []) → ⊥ }
    ensures too_early { CountFrom 7 (SeqSpent 7 ∷ []) → ⊥ }
    ensures after_one { CountFrom (last_seq - 1) (Saved 1 ∷ (SeqSpent last_seq ∷ [])) }
{}

/// Faults are counted one a round. No rise is asked for none, and one is that of a call.
pub fn counts_of_faults()
    ensures two { disk_faults (DiskFault 1 ∷ (Saved 3 ∷ (DiskFault 6 ∷ (NoMemory ∷ [])))) ≡ 2 }
    ensures none { (before now : ℕ) → before ≤ 2 ^ 64 - 1 → RoseBy 0 before now → before ≤ now }
    ensures one { (before now : ℕ) → RoseBy 1 before now → Rose before now }
{}

/// Memory was wanting where a context stopped early, or where a last round was refused it; not where a round of the worker was.
pub fn known_wants()
    ensures all { (key : KeyStroke) → memory_wanted ((key ∷ []) ∷ [])
        (record { journal = []; contexts = record { who = 1; handled = 1; bytes = [] } ∷ []; rounds = []; last_from = 0; memory = false }) ≡ false }
    ensures early { (key : KeyStroke) → memory_wanted ((key ∷ []) ∷ [])
        (record { journal = []; contexts = record { who = 1; handled = 0; bytes = [] } ∷ []; rounds = []; last_from = 0; memory = false }) ≡ true }
    ensures last { memory_wanted [] (record { journal = []; contexts = []; rounds = NoMemory ∷ (NoMemory ∷ []); last_from = 1; memory = false }) ≡ true }
    ensures worker { memory_wanted [] (record { journal = []; contexts = []; rounds = NoMemory ∷ []; last_from = 1; memory = false }) ≡ false }
{}
