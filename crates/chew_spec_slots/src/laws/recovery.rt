//! What two slots recover to.

ghost use Rattle.std.specs.Prelude.{◌≡◌, ℕ, ◌<◌, ◌≤◌, false, List, [], ◌∷◌, length, Option, Some, None};
ghost use Rattle.chew_spec_slots.specs.Reading.{Faulty, Open, Shut, SlotReading, is_open, slot_reading};
ghost use Rattle.chew_spec_slots.specs.Recovery.{Newest, Recovered, Recovery, TooLarge, damage, newest, recovered, refusal};
ghost use Rattle.chew_spec_slots.specs.Slot.{Saved, length_limit, no_checkpoint, rows_limit};

/// Of two open slots the one with the greater seq counts, and slot 0 of equal ones.
pub fn newer_counts()
    ensures zero { (saved other : Saved) → other.seq ≤ saved.seq → newest (Open saved) (Open other) ≡ Some (record { slot = 0; saved = saved }) }
    ensures one { (saved other : Saved) → saved.seq < other.seq → newest (Open saved) (Open other) ≡ Some (record { slot = 1; saved = other }) }
    ensures zero_alone { (saved : Saved) → newest (Open saved) Shut ≡ Some (record { slot = 0; saved = saved }) }
    ensures one_alone { (saved : Saved) → newest Shut (Open saved) ≡ Some (record { slot = 1; saved = saved }) }
    ensures none { newest Shut Shut ≡ None }
{}

/// A slot that is shut is never refused, unless it is too large, and a slot that is too large always is.
pub fn refused_slots()
    ensures shut { (slot : ℕ) (bytes : List ℕ) → length bytes ≤ length_limit → is_open bytes ≡ false → refusal slot bytes ≡ None }
    ensures too_large { (slot : ℕ) (bytes : List ℕ) → length_limit < length bytes → refusal slot bytes ≡ Some (TooLarge slot (length bytes)) }
{}

/// A slot has at most 2^28 bytes and 200,000 rows.
pub fn limits_of_slots()
    ensures bytes { length_limit ≡ 268_435_456 }
    ensures rows { rows_limit ≡ 200_000 }
{}

/// Two slots that hold nothing, or a gate that is shut, recover to the empty map.
#[tactic(auto, unfolding(crate::specs::Recovery::recovered))]
pub fn nothing_saved()
    ensures empty { recovered [] [] ≡ Recovered no_checkpoint }
    ensures shut { recovered (0 ∷ 0xFF ∷ []) (0 ∷ 0xFF ∷ []) ≡ Recovered no_checkpoint }
{}
