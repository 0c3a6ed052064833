//! When the seq is spent.

ghost use Rattle.std.specs.Prelude.{◌≡◌, ◌≢◌, ◌↔◌, ℕ, ◌+◌, List, [], ◌∷◌, ◌++◌};
ghost use Rattle.chew_spec_rounds.specs.Round.{DiskFault, NoMemory, Round, Saved, SeqSpent};
ghost use Rattle.chew_spec_rounds.specs.Seq.{CountSeqs, CountsSeq, last_seq, saved_count};

/// A round answers that the seq is spent exactly where the seq found and the number of rounds before it that saved a snapshot
/// are in sum the last seq.
pub fn spent_by_counting()
    ensures spent { (seqs : ℕ → ℕ) (before : List Round) (round : Round) (later : List Round) → CountSeqs seqs 0 (before ++ round ∷ later)
        → (round ≡ SeqSpent last_seq) ↔ (seqs 0 + saved_count before ≡ last_seq) }
    ensures number { (seqs : ℕ → ℕ) (before : List Round) (number : ℕ) (later : List Round) → CountSeqs seqs 0 (before ++ SeqSpent number ∷ later)
        → number ≡ last_seq }
{}

/// A saved round counts the seq up, and any other leaves it; none but the last seq is spent.
pub fn rounds_count()
    ensures saved { (seq number : ℕ) → seq ≢ last_seq → CountsSeq seq (seq + 1) (Saved number) }
    ensures fault { (seq step : ℕ) → seq ≢ last_seq → CountsSeq seq seq (DiskFault step) }
    ensures memory { (seq : ℕ) → seq ≢ last_seq → CountsSeq seq seq NoMemory }
    ensures spent { (seq : ℕ) → seq ≡ last_seq → CountsSeq seq seq (SeqSpent seq) }
{}

/// The last seq, and how many rounds of a list saved a snapshot.
pub fn known_counts()
    ensures last { last_seq ≡ 18_446_744_073_709_551_615 }
    ensures none { saved_count (DiskFault 6 ∷ (NoMemory ∷ (SeqSpent 1 ∷ []))) ≡ 0 }
    ensures two { saved_count (Saved 3 ∷ (DiskFault 6 ∷ (Saved 3 ∷ []))) ≡ 2 }
    ensures counts { CountsSeq 7 8 (Saved 3) }
    ensures not_counted { CountsSeq 7 7 (Saved 3) → ⊥ }
    ensures spent { CountsSeq last_seq last_seq (SeqSpent last_seq) }
    ensures too_early { CountsSeq 7 7 (SeqSpent 7) → ⊥ }
    ensures too_late { CountsSeq last_seq (last_seq + 1) (Saved 3) → ⊥ }
{}
