//! Laws of legal histories.

ghost use Rattle.std.specs.Prelude.{◌≡◌, ◌≢◌, ◌↔◌, ℕ, ◌≤◌, ◌++◌, List, [], ◌∷◌, length, Contains, Some, true, false, replicate};
ghost use Rattle.chew_spec_syllable.specs.Key.{is_run};
ghost use Rattle.chew_spec_syllable.specs.Row.{is_pair};
ghost use Rattle.chew_spec_dictionary.specs.Call.{Call, Look, Learn, Forget, Hide, Freeze, Install, is_proper};
ghost use Rattle.chew_spec_dictionary.specs.History.{Point, Entry, after, is_keepers, is_legal, is_legal_entry, is_user_call};
ghost use Rattle.chew_spec_dictionary.specs.FiveRows.{shi4};
ghost use Rattle.chew_spec_dictionary.specs.Known.{by, ce_key, ce_shi_key, nothing_with_cap, shi_key, survey, test};

/// Which calls are proper: a look of a run, a learn of a pair with its frequencies in order and in range,
/// a forget of a pair, a hide of a pair of at least two syllables, and each freeze and install.
pub fn proper_calls()
    ensures look { (run : List ℕ) → (is_proper (Look run) ≡ true) ↔ (is_run run ≡ true) }
    ensures learn { (key phrase : List ℕ) (orig peak : ℕ) → (is_proper (Learn key phrase orig peak) ≡ true)
        ↔ ((is_pair key phrase ≡ true) × (orig ≤ peak) × (peak ≤ 99_999_999)) }
    ensures forget { (key phrase : List ℕ) → (is_proper (Forget key phrase) ≡ true) ↔ (is_pair key phrase ≡ true) }
    ensures hide { (key phrase : List ℕ) → (is_proper (Hide key phrase) ≡ true) ↔ ((is_pair key phrase ≡ true) × (2 ≤ length key)) }
    ensures freeze { is_proper Freeze ≡ true }
    ensures install { (number : ℕ) → is_proper (Install number) ≡ true }
{}

/// What is known of the entries of a legal history: the number 0 made exactly the freezes and installs,
/// each call is proper, and each install names the number that waits at its place. What anyone else may
/// ask is the same at any point.
pub fn legal_entries()
    ensures keepers { (p : Point) (h : List Entry) (e : Entry) → is_legal p h ≡ true → Contains h e → (e.who ≡ 0) ↔ (is_keepers e.call ≡ true) }
    ensures proper { (p : Point) (h : List Entry) (e : Entry) → is_legal p h ≡ true → Contains h e → is_proper e.call ≡ true }
    ensures waits { (p : Point) (h : List Entry) (e : Entry) (more : List Entry) (number : ℕ) → is_legal p (h ++ e ∷ more) ≡ true
        → e.call ≡ Install number → (after p h).shape.waiting ≡ Some number }
    ensures users { (p : Point) (e : Entry) → e.who ≢ 0 → is_legal_entry p e ≡ is_user_call e.call }
    ensures freeze { is_keepers Freeze ≡ true }
    ensures install { (number : ℕ) → is_keepers (Install number) ≡ true }
    ensures look { (run : List ℕ) → is_keepers (Look run) ≡ false }
    ensures learn { (key phrase : List ℕ) (orig peak : ℕ) → is_keepers (Learn key phrase orig peak) ≡ false }
    ensures forget { (key phrase : List ℕ) → is_keepers (Forget key phrase) ≡ false }
    ensures hide { (key phrase : List ℕ) → is_keepers (Hide key phrase) ≡ false }
{}

/// Histories that are legal and, a little changed, are not: 測試 under ㄘㄜˋ ㄕˋ learnt, with its frequencies out
/// of order and out of range; forgotten, under one syllable; hidden, 測 by itself; a look-up of 39 syllables and of
/// 40, and one by the keeper; a freeze, by another; and an install of what waits, of another number, where nothing
/// waits, and by another.
pub fn known_legal()
    ensures learn { is_legal (nothing_with_cap 2) (by 1 (Learn ce_shi_key test 9318 9318) ∷ []) ≡ true }
    ensures above_peak { is_legal (nothing_with_cap 2) (by 1 (Learn ce_shi_key test 9319 9318) ∷ []) ≡ false }
    ensures out_of_range { is_legal (nothing_with_cap 2) (by 1 (Learn ce_shi_key test 0 100_000_000) ∷ []) ≡ false }
    ensures forget { is_legal (nothing_with_cap 2) (by 1 (Forget ce_shi_key test) ∷ []) ≡ true }
    ensures no_pair { is_legal (nothing_with_cap 2) (by 1 (Forget ce_key test) ∷ []) ≡ false }
    ensures hide { is_legal (nothing_with_cap 2) (by 1 (Hide ce_shi_key test) ∷ []) ≡ true }
    ensures one_syllable { is_legal (nothing_with_cap 2) (by 1 (Hide ce_key survey) ∷ []) ≡ false }
    ensures look { is_legal (nothing_with_cap 2) (by 1 (Look (replicate 39 shi4)) ∷ []) ≡ true }
    ensures long_run { is_legal (nothing_with_cap 2) (by 1 (Look (replicate 40 shi4)) ∷ []) ≡ false }
    ensures keeper_looks { is_legal (nothing_with_cap 2) (by 0 (Look shi_key) ∷ []) ≡ false }
    ensures freeze { is_legal (nothing_with_cap 2) (by 0 Freeze ∷ []) ≡ true }
    ensures other_freezes { is_legal (nothing_with_cap 2) (by 1 Freeze ∷ []) ≡ false }
    ensures install { is_legal (nothing_with_cap 2) (by 0 Freeze ∷ by 0 (Install 0) ∷ []) ≡ true }
    ensures other_number { is_legal (nothing_with_cap 2) (by 0 Freeze ∷ by 0 (Install 1) ∷ []) ≡ false }
    ensures none_waits { is_legal (nothing_with_cap 2) (by 0 (Install 0) ∷ []) ≡ false }
    ensures other_installs { is_legal (nothing_with_cap 2) (by 0 Freeze ∷ by 1 (Install 0) ∷ []) ≡ false }
{}
