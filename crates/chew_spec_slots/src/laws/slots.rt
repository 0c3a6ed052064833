//! What is printed and read.

ghost use Rattle.std.specs.Prelude.{◌≡◌, ◌⊎◌, ℕ, ◌+◌, ◌^◌, ◌<◌, ◌≤◌, false, true, List, [], ◌∷◌, ◌++◌, drop, length, take, Ok};
ghost use Rattle.chew_spec_image.specs.Fields.{AreBytes};
ghost use Rattle.chew_spec_image.specs.Image.{image};
ghost use Rattle.chew_spec_image.specs.Reading.{image_reading};
ghost use Rattle.chew_spec_slots.specs.Reading.{Faulty, Open, Shut, is_open, is_surely_shut, slot_reading};
ghost use Rattle.chew_spec_slots.specs.Slot.{IsSaved, Saved, body, digest, digest_magic, magic, plain_slot, slot};

/// A slot of either format reads as what it was printed for, whatever bytes of a longer one follow it.
pub fn printed_reads()
    ensures slot { (saved : Saved) (rest : List ℕ) → IsSaved saved → slot_reading (slot saved ++ rest) ≡ Open saved }
    ensures plain { (saved : Saved) (rest : List ℕ) → IsSaved saved → slot_reading (plain_slot saved ++ rest) ≡ Open saved }
    ensures digest { (bytes : List ℕ) → length (digest bytes) ≡ 32 }
    ensures fits { (saved : Saved) → IsSaved saved → 1 + length (body saved) ≤ 60_000_101 }
{}

/// With more rows than a slot may have, 200,001 or more, a slot of either format is damaged at the number of its rows.
pub fn too_many_rows()
    ensures slot { (saved : Saved) (rest : List ℕ) → 1 ≤ saved.seq → saved.seq < 2 ^ 64 → saved.checkpoint.life < 2 ^ 64 →
        image_reading (image saved.checkpoint.rows) ≡ Ok saved.checkpoint.rows → 200_000 < length saved.checkpoint.rows →
        slot_reading (slot saved ++ rest) ≡ Faulty 41 }
    ensures plain { (saved : Saved) (rest : List ℕ) → 1 ≤ saved.seq → saved.seq < 2 ^ 64 → saved.checkpoint.life < 2 ^ 64 →
        image_reading (image saved.checkpoint.rows) ≡ Ok saved.checkpoint.rows → 200_000 < length saved.checkpoint.rows →
        slot_reading (plain_slot saved ++ rest) ≡ Faulty 41 }
{}

/// Known gates: none, one that is shut, and open ones with fewer bytes than a slot has, and with as many.
pub fn known_gates()
    ensures none { is_surely_shut [] ≡ false }
    ensures shut { is_surely_shut (0 ∷ []) ≡ true }
    ensures open { is_surely_shut (0xA5 ∷ []) ≡ false }
    ensures no_slot { is_open [] ≡ false }
    ensures short { slot_reading (0xA5 ∷ []) ≡ Shut }
{}

/// What reads as a checkpoint begins with the printed slot of that checkpoint, in the format of its magic, and is
/// nothing else where no bytes follow.
pub fn read_as_itself_alone()
    ensures digest { (bytes : List ℕ) (saved : Saved) → AreBytes bytes → slot_reading bytes ≡ Open saved → take 8 (drop 1 bytes) ≡ digest_magic →
        (rest : List ℕ) × (bytes ≡ slot saved ++ rest) }
    ensures plain { (bytes : List ℕ) (saved : Saved) → AreBytes bytes → slot_reading bytes ≡ Open saved → take 8 (drop 1 bytes) ≡ magic →
        (rest : List ℕ) × (bytes ≡ plain_slot saved ++ rest) }
    ensures either { (bytes : List ℕ) (saved : Saved) → AreBytes bytes → slot_reading bytes ≡ Open saved →
        (take 8 (drop 1 bytes) ≡ magic) ⊎ (take 8 (drop 1 bytes) ≡ digest_magic) }
    ensures saved { (bytes : List ℕ) (saved : Saved) → AreBytes bytes → slot_reading bytes ≡ Open saved → IsSaved saved }
    ensures whole { (bytes : List ℕ) (saved : Saved) → AreBytes bytes → slot_reading bytes ≡ Open saved → take 8 (drop 1 bytes) ≡ digest_magic →
        length bytes ≡ length (slot saved) → bytes ≡ slot saved }
{}
