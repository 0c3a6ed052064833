//! Known lists that a crash of a disk in memory leaves of a slot.

ghost use Rattle.std.specs.Prelude.{◌≡◌, ℕ, Bool, true, false, List, [], ◌∷◌};
ghost use Rattle.chew_spec_disk.specs.Crash.{IsCrashOf, is_fresh, mark, marked_after, synced_after, with_marks};
ghost use Rattle.chew_spec_disk.specs.Memory.{Event, IsLeftAfter, Synced, Written};

/// A slot that has 1, 2 at first, of which 9 is written over 2, then synced, and then 7, 8 are written from
/// place 1 on, done or failed.
pub fn known_crashes()
    ensures mark { mark ≡ 0xA5 }
    ensures lost_new { synced_after (1 ∷ 2 ∷ []) (Written 1 1 (9 ∷ []) true ∷ []) ≡ 1 ∷ 2 ∷ [] }
    ensures lost { synced_after (1 ∷ 2 ∷ []) (Written 3 1 (7 ∷ 8 ∷ []) true ∷ Synced 2 ∷ Written 1 1 (9 ∷ []) true ∷ []) ≡ 1 ∷ 9 ∷ [] }
    ensures marked { marked_after (1 ∷ 2 ∷ []) (Written 3 1 (7 ∷ 8 ∷ []) true ∷ Synced 2 ∷ Written 1 1 (9 ∷ []) true ∷ []) ≡ 1 ∷ 0xA5 ∷ 0xA5 ∷ [] }
    ensures marked_failed { marked_after (1 ∷ 2 ∷ []) (Written 3 1 (7 ∷ 8 ∷ []) false ∷ Synced 2 ∷ Written 1 1 (9 ∷ []) true ∷ []) ≡ 1 ∷ 0xA5 ∷ [] }
    ensures marked_twice { marked_after (1 ∷ 2 ∷ []) (Written 4 0 (7 ∷ []) true ∷ Written 3 1 (8 ∷ []) true ∷ []) ≡ 0xA5 ∷ 0xA5 ∷ [] }
    ensures marked_synced { marked_after (1 ∷ 2 ∷ []) (Synced 2 ∷ Written 1 1 (9 ∷ []) true ∷ []) ≡ 1 ∷ 9 ∷ [] }
    ensures gap { marked_after (1 ∷ []) (Written 1 3 (9 ∷ []) true ∷ []) ≡ 1 ∷ 0 ∷ 0 ∷ 0xA5 ∷ [] }
    ensures kept { (list : List ℕ) → IsCrashOf 0 (record { first = 1 ∷ []; events = Written 1 0 (9 ∷ []) true ∷ [] }) list → list ≡ 9 ∷ [] }
    ensures dropped { (list : List ℕ) → IsCrashOf 1 (record { first = 1 ∷ []; events = Written 1 0 (9 ∷ []) true ∷ [] }) list → list ≡ 1 ∷ [] }
    ensures spoiled { (list : List ℕ) → IsCrashOf 2 (record { first = 1 ∷ []; events = Written 1 0 (9 ∷ []) true ∷ [] }) list → list ≡ 0xA5 ∷ [] }
    ensures other { IsCrashOf 3 (record { first = 1 ∷ []; events = Written 1 0 (9 ∷ []) true ∷ [] }) (7 ∷ 7 ∷ []) → ⊥ }
{}

/// The bytes that were written since the last sync.
pub fn known_fresh()
    ensures before { is_fresh (1 ∷ 2 ∷ []) (Written 3 1 (7 ∷ 8 ∷ []) true ∷ []) 0 ≡ false }
    ensures first { is_fresh (1 ∷ 2 ∷ []) (Written 3 1 (7 ∷ 8 ∷ []) true ∷ []) 1 ≡ true }
    ensures last { is_fresh (1 ∷ 2 ∷ []) (Written 3 1 (7 ∷ 8 ∷ []) true ∷ []) 2 ≡ true }
    ensures behind { is_fresh (1 ∷ 2 ∷ []) (Written 3 1 (7 ∷ 8 ∷ []) true ∷ []) 3 ≡ false }
    ensures earlier { is_fresh (1 ∷ 2 ∷ []) (Written 4 0 (7 ∷ []) true ∷ Written 3 1 (8 ∷ []) true ∷ []) 1 ≡ true }
    ensures synced { is_fresh (1 ∷ 2 ∷ []) (Synced 4 ∷ Written 3 1 (8 ∷ []) true ∷ []) 1 ≡ false }
{}
