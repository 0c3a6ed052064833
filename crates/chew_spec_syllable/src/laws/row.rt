//! Laws and known values of keys, runs, pairs and rows.

ghost use Rattle.std.specs.Prelude.{◌≡◌, ◌↔◌, ℕ, List, [], ◌∷◌, length, IsTrue, IsFalse, encode_utf8_all, codes, slice_get, Some};
ghost use Rattle.std.specs.List.{repeat};
ghost use Rattle.std.specs.Cmp.{IsTotalOrder};
ghost use Rattle.std.specs.Cmp.Lexicographic.{slice_cmp};
ghost use Rattle.std.specs.Ordering.{nat_cmp, ordering_then};
ghost use Rattle.std.specs.declared.cmp.Ordering.TheVariants.{Equal};
ghost use Rattle.chew_spec_syllable.specs.Key.{is_key, is_run};
ghost use Rattle.chew_spec_syllable.specs.Row.{Row, image_cmp, is_pair, is_pair_of, is_row, no_pair_twice};

/// A key has 1 to 11 syllables and a run at most 39, and nothing else.
pub fn known_keys()
    ensures empty { IsFalse (is_key []) }
    ensures one { IsTrue (is_key (10268 ∷ [])) }
    ensures eleven { IsTrue (is_key (repeat 11 (8708 ∷ []))) }
    ensures twelve { IsFalse (is_key (repeat 12 (8708 ∷ []))) }
    ensures no_syllable { IsFalse (is_key (8708 ∷ (0 ∷ []))) }
    ensures empty_run { IsTrue (is_run []) }
    ensures longest_run { IsTrue (is_run (repeat 39 (8708 ∷ []))) }
    ensures too_long { IsFalse (is_run (repeat 40 (8708 ∷ []))) }
    ensures no_syllable_in_run { IsFalse (is_run (8708 ∷ (0 ∷ []))) }
{}

/// A pair has as many characters as syllables, its key is a key and its phrase a phrase.
pub fn known_pairs()
    ensures one { IsTrue (is_pair (10268 ∷ []) (encode_utf8_all (codes "測"))) }
    ensures two { IsTrue (is_pair (10268 ∷ (8708 ∷ [])) (encode_utf8_all (codes "測試"))) }
    ensures fewer { IsFalse (is_pair (10268 ∷ []) (encode_utf8_all (codes "測試"))) }
    ensures more { IsFalse (is_pair (10268 ∷ (8708 ∷ [])) (encode_utf8_all (codes "測"))) }
    ensures none { IsFalse (is_pair [] []) }
    ensures no_code { IsFalse (is_pair (0 ∷ []) (encode_utf8_all (codes "測"))) }
    ensures no_phrase { IsFalse (is_pair (10268 ∷ []) (codes "a")) }
{}

/// A row is a pair with a frequency of at most 99,999,999, at any time.
pub fn known_rows()
    ensures least { IsTrue (is_row (record { key = 10268 ∷ []; phrase = encode_utf8_all (codes "測"); freq = 0; time = 0 })) }
    ensures greatest { IsTrue
        (is_row (record { key = 10268 ∷ []; phrase = encode_utf8_all (codes "測"); freq = 99_999_999; time = 18_446_744_073_709_551_615 })) }
    ensures too_great { IsFalse (is_row (record { key = 10268 ∷ []; phrase = encode_utf8_all (codes "測"); freq = 100_000_000; time = 0 })) }
    ensures no_pair { IsFalse (is_row (record { key = 10268 ∷ (8708 ∷ []); phrase = encode_utf8_all (codes "測"); freq = 0; time = 0 })) }
{}

/// A row is of a pair exactly where its key and its phrase are the pair's. No pair stands twice exactly where no two
/// places have rows of one pair.
pub fn pairs_are_apart()
    ensures pair { (key phrase : List ℕ) (row : Row) → IsTrue (is_pair_of key phrase row) ↔ ((row.key ≡ key) × (row.phrase ≡ phrase)) }
    ensures once { (rows : List Row) (i j : ℕ) (a b : Row) → IsTrue (no_pair_twice rows)
        → slice_get rows i ≡ Some a → slice_get rows j ≡ Some b → a.key ≡ b.key → a.phrase ≡ b.phrase → i ≡ j }
    ensures back { (rows : List Row)
        → ((i j : ℕ) (a b : Row) → slice_get rows i ≡ Some a → slice_get rows j ≡ Some b → a.key ≡ b.key → a.phrase ≡ b.phrase → i ≡ j)
        → IsTrue (no_pair_twice rows) }
{}

/// Image order is a total order of rows: by the keys' lengths, then their codes, then the phrases' bytes. Exactly the
/// rows of one pair are equal in it.
pub fn image_order()
    ensures total { IsTotalOrder image_cmp }
    ensures order { (row other : Row)
        → image_cmp row other ≡ ordering_then (nat_cmp (length row.key) (length other.key))
        (ordering_then (slice_cmp nat_cmp row.key other.key) (slice_cmp nat_cmp row.phrase other.phrase)) }
    ensures same_key { (row other : Row) → image_cmp row other ≡ Equal → row.key ≡ other.key }
    ensures same_phrase { (row other : Row) → image_cmp row other ≡ Equal → row.phrase ≡ other.phrase }
    ensures same_pair { (row other : Row) → row.key ≡ other.key → row.phrase ≡ other.phrase → image_cmp row other ≡ Equal }
{}
