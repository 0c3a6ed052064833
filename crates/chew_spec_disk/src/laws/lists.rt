//! Known lists after a write, one that a crash tears among them, and known reads.

ghost use Rattle.std.specs.Prelude.{◌≡◌, ℕ, ◌+◌, ◌≤◌, max, List, [], ◌∷◌, length, take, drop};
ghost use Rattle.chew_spec_disk.specs.Reads.{ReadsAt};
ghost use Rattle.chew_spec_disk.specs.Write.{Holds, Torn};

/// A torn list is the old one but for a range and what is past the old end, where it may be longer by as
/// much as the range reaches.
pub fn torn_by_parts()
    ensures front { (at n : ℕ) (old new : List ℕ) → at ≤ length old → Torn at n old new → take at new ≡ take at old }
    ensures back { (at n : ℕ) (old new : List ℕ) → at + n ≤ length old → Torn at n old new →
        drop (at + n) (take (length old) new) ≡ drop (at + n) old }
    ensures parts { (at n : ℕ) (old new : List ℕ) → take at new ≡ take at old →
        drop (at + n) (take (length old) new) ≡ drop (at + n) old → length old ≤ length new →
        length new ≤ max (length old) (at + n) → Torn at n old new }
    ensures same { (at n : ℕ) (list : List ℕ) → Torn at n list list }
{}

/// Known torn lists.
pub fn known_torn()
    ensures in_range { Torn 1 1 (1 ∷ 2 ∷ 3 ∷ []) (1 ∷ 9 ∷ 3 ∷ []) }
    ensures before_range { Torn 1 1 (1 ∷ 2 ∷ 3 ∷ []) (9 ∷ 2 ∷ 3 ∷ []) → ⊥ }
    ensures behind_range { Torn 1 1 (1 ∷ 2 ∷ 3 ∷ []) (1 ∷ 2 ∷ 9 ∷ []) → ⊥ }
    ensures shorter { Torn 1 2 (1 ∷ 2 ∷ 3 ∷ []) (1 ∷ 2 ∷ []) → ⊥ }
    ensures longer { Torn 1 1 (1 ∷ 2 ∷ 3 ∷ []) (1 ∷ 2 ∷ 3 ∷ 4 ∷ []) → ⊥ }
    ensures grown { Torn 2 2 (1 ∷ 2 ∷ 3 ∷ []) (1 ∷ 2 ∷ 9 ∷ 9 ∷ []) }
    ensures grown_too_far { Torn 2 2 (1 ∷ 2 ∷ 3 ∷ []) (1 ∷ 2 ∷ 9 ∷ 9 ∷ 9 ∷ []) → ⊥ }
    ensures gap { Torn 3 1 (1 ∷ []) (1 ∷ 7 ∷ 8 ∷ 9 ∷ []) }
    ensures part_of_gap { Torn 3 1 (1 ∷ []) (1 ∷ 7 ∷ []) }
    ensures none_of_gap { Torn 3 1 (1 ∷ []) (1 ∷ []) }
    ensures before_gap { Torn 3 1 (1 ∷ []) (7 ∷ 7 ∷ 8 ∷ 9 ∷ []) → ⊥ }
{}

/// Known lists after a write that was done.
pub fn known_writes()
    ensures in_range { Holds 1 (9 ∷ []) (1 ∷ 2 ∷ 3 ∷ []) (1 ∷ 9 ∷ 3 ∷ []) }
    ensures other_byte { Holds 1 (9 ∷ []) (1 ∷ 2 ∷ 3 ∷ []) (1 ∷ 8 ∷ 3 ∷ []) → ⊥ }
    ensures grown { Holds 2 (8 ∷ 9 ∷ []) (1 ∷ 2 ∷ 3 ∷ []) (1 ∷ 2 ∷ 8 ∷ 9 ∷ []) }
    ensures cut { Holds 1 (9 ∷ []) (1 ∷ 2 ∷ 3 ∷ []) (1 ∷ 9 ∷ []) → ⊥ }
    ensures too_long { Holds 1 (9 ∷ []) (1 ∷ []) (1 ∷ 9 ∷ 0 ∷ []) → ⊥ }
    ensures nothing_past_end { Holds 2 [] (1 ∷ []) (1 ∷ 0 ∷ []) }
{}

/// Known reads of the list 1, 2, 3 into a buffer of two.
pub fn known_reads()
    ensures whole { ReadsAt (1 ∷ 2 ∷ 3 ∷ []) 0 (0 ∷ 0 ∷ []) (1 ∷ 2 ∷ []) 2 }
    ensures short { ReadsAt (1 ∷ 2 ∷ 3 ∷ []) 2 (7 ∷ 8 ∷ []) (3 ∷ 8 ∷ []) 1 }
    ensures end { ReadsAt (1 ∷ 2 ∷ 3 ∷ []) 3 (7 ∷ 8 ∷ []) (7 ∷ 8 ∷ []) 0 }
    ensures past_end { ReadsAt (1 ∷ 2 ∷ 3 ∷ []) 5 (7 ∷ 8 ∷ []) (7 ∷ 8 ∷ []) 0 }
    ensures less { ReadsAt (1 ∷ 2 ∷ 3 ∷ []) 0 (0 ∷ 0 ∷ []) (1 ∷ 0 ∷ []) 1 → ⊥ }
    ensures other_place { ReadsAt (1 ∷ 2 ∷ 3 ∷ []) 1 (0 ∷ 0 ∷ []) (1 ∷ 2 ∷ []) 2 → ⊥ }
    ensures rest_of_buffer { ReadsAt (1 ∷ 2 ∷ 3 ∷ []) 2 (7 ∷ 8 ∷ []) (3 ∷ 0 ∷ []) 1 → ⊥ }
{}
