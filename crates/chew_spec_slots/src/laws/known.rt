//! Known slots. The slot of one row has 127 bytes in the first format, and 159 in the second.

ghost use Rattle.std.specs.Prelude.{◌≡◌, ℕ, ◌++◌, List, [], ◌∷◌, length, map, replicate, take};
ghost use Rattle.std.specs.List.{range_with_len};
ghost use Rattle.chew_spec_image.specs.Sample.{patched};
ghost use Rattle.chew_spec_slots.specs.Reading.{Faulty, Open, Shut, slot_reading};
ghost use Rattle.chew_spec_slots.specs.Recovery.{Damaged, Recovered, recovered};
ghost use Rattle.chew_spec_slots.specs.Sample.{behind_gate, life_two, one_row_digest, one_row_front, one_row_plain_slot, one_row_saved, one_row_slot};
ghost use Rattle.chew_spec_slots.specs.Slot.{digest, no_checkpoint, plain_slot, slot};

/// These bytes are printed for one row in either format, and stand for it, also where ten bytes follow.
pub fn known_slots()
    ensures plain { plain_slot one_row_saved ≡ one_row_plain_slot }
    ensures plain_length { length one_row_plain_slot ≡ 127 }
    ensures digest { digest (behind_gate one_row_front) ≡ one_row_digest }
    ensures slot { slot one_row_saved ≡ one_row_slot }
    ensures length { length one_row_slot ≡ 159 }
    ensures reads_plain { slot_reading one_row_plain_slot ≡ Open one_row_saved }
    ensures reads { slot_reading one_row_slot ≡ Open one_row_saved }
    ensures longer_plain { slot_reading (one_row_plain_slot ++ replicate 10 0xFF) ≡ Open one_row_saved }
    ensures longer { slot_reading (one_row_slot ++ replicate 10 0xFF) ≡ Open one_row_saved }
{}

/// Cut before its 33rd byte a slot is shut; cut anywhere else it is damaged at its length.
pub fn known_cuts()
    ensures shut_plain { map (λ n. slot_reading (take n one_row_plain_slot)) (range_with_len 0 33) ≡ replicate 33 Shut }
    ensures plain { map (λ n. slot_reading (take n one_row_plain_slot)) (range_with_len 33 94) ≡ map Faulty (range_with_len 33 94) }
    ensures shut { map (λ n. slot_reading (take n one_row_slot)) (range_with_len 0 33) ≡ replicate 33 Shut }
    ensures cut { map (λ n. slot_reading (take n one_row_slot)) (range_with_len 33 126) ≡ map Faulty (range_with_len 33 126) }
{}

/// Damage of the first format: another magic, seq 0, an image that reaches past the slot, one that is faulty at its own
/// first byte, at its number of nodes, or by its length, and the slot of 60 bytes that tells an image of 100.
pub fn known_damage()
    ensures gate { slot_reading (patched one_row_plain_slot 0 (0xA4 ∷ [])) ≡ Shut }
    ensures magic { slot_reading (patched one_row_plain_slot 8 (0x30 ∷ [])) ≡ Faulty 1 }
    ensures seq { slot_reading (patched one_row_plain_slot 9 (0 ∷ [])) ≡ Faulty 9 }
    ensures past { slot_reading (patched one_row_plain_slot 25 (95 ∷ [])) ≡ Faulty 127 }
    ensures far_past { slot_reading (patched one_row_plain_slot 25 (replicate 8 0xFF)) ≡ Faulty 127 }
    ensures image { slot_reading (patched one_row_plain_slot 33 (0 ∷ [])) ≡ Faulty 33 }
    ensures nodes { slot_reading (patched one_row_plain_slot 45 (0 ∷ [])) ≡ Faulty 45 }
    ensures shorter { slot_reading (patched one_row_plain_slot 25 (93 ∷ [])) ≡ Faulty 126 }
    ensures sixty { slot_reading (patched (take 60 one_row_plain_slot) 25 (100 ∷ [])) ≡ Faulty 60 }
{}

/// Damage of the second format: a byte of the image, of the life or of the digest that differs is told where the digest
/// begins, before a fault of the image; seq 0 and an image that reaches past the slot are told before the digest. A
/// magic of neither format is told before all.
pub fn known_damage_of_digests()
    ensures magic { slot_reading (patched one_row_slot 8 (0x33 ∷ [])) ≡ Faulty 1 }
    ensures seq { slot_reading (patched one_row_slot 9 (0 ∷ [])) ≡ Faulty 9 }
    ensures past { slot_reading (patched one_row_slot 25 (95 ∷ [])) ≡ Faulty 159 }
    ensures far_past { slot_reading (patched one_row_slot 25 (replicate 8 0xFF)) ≡ Faulty 159 }
    ensures life { slot_reading (patched one_row_slot 17 (2 ∷ [])) ≡ Faulty 127 }
    ensures image { slot_reading (patched one_row_slot 33 (0 ∷ [])) ≡ Faulty 127 }
    ensures phrase { slot_reading (patched one_row_slot 126 (0xA7 ∷ [])) ≡ Faulty 127 }
    ensures first_of_digest { slot_reading (patched one_row_slot 127 (0x39 ∷ [])) ≡ Faulty 127 }
    ensures last_of_digest { slot_reading (patched one_row_slot 158 (0xD3 ∷ [])) ≡ Faulty 127 }
{}

/// Two slots: of equal seqs slot 0 counts, else the one with the greater seq; a damaged slot is refused beside a whole
/// one, slot 0 before slot 1.
pub fn known_pairs()
    ensures zero { recovered one_row_plain_slot [] ≡ Recovered one_row_saved.checkpoint }
    ensures one { recovered [] one_row_slot ≡ Recovered one_row_saved.checkpoint }
    ensures equal { recovered one_row_plain_slot (life_two 1) ≡ Recovered one_row_saved.checkpoint }
    ensures newer { recovered one_row_plain_slot (life_two 2) ≡ Recovered (record one_row_saved.checkpoint { life = 2 }) }
    ensures older { recovered (life_two 2) one_row_plain_slot ≡ Recovered (record one_row_saved.checkpoint { life = 2 }) }
    ensures second { recovered one_row_plain_slot (take 40 one_row_slot) ≡ Damaged 1 40 }
    ensures first { recovered (take 50 one_row_slot) (take 40 one_row_slot) ≡ Damaged 0 50 }
    ensures short { recovered (take 32 one_row_slot) [] ≡ Recovered no_checkpoint }
{}
