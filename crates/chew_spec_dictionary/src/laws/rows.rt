//! Laws of the rows of a key.

ghost use Rattle.std.specs.Prelude.{◌≡◌, ◌⊎◌, ◌≤◌, ℕ, List, true, Some, Contains, IsPermutation, IsSorted, length, ◌≢◌, ◌↔◌, [], ◌∷◌, None};
ghost use Rattle.std.specs.Cmp.{IsTotalOrder};
ghost use Rattle.std.specs.Cmp.Lexicographic.{slice_cmp};
ghost use Rattle.std.specs.Ordering.{nat_cmp, ordering_then};
ghost use Rattle.std.specs.declared.cmp.Ordering.TheVariants.{Equal};
ghost use Rattle.chew_spec_syllable.specs.Row.{Row, image_cmp, no_pair_twice};
ghost use Rattle.chew_spec_dictionary.specs.Order.{in_order};
ghost use Rattle.chew_spec_dictionary.specs.System.{row_of, rows_of, rows_under, phrase_cmp, freq_of, peak_of, has_single};
ghost use Rattle.chew_spec_dictionary.specs.Look.{shown_cmp, shown_hit_cmp};
ghost use Rattle.chew_spec_dictionary.specs.Dictionary.{is_map};

/// The three orders of rows are total, and that in which the hits of an interval are shown. Image
/// order is by the key's length, then its codes, then the phrase's bytes, so only rows of one pair
/// tie in it.
pub fn orders_of_rows()
    ensures image { IsTotalOrder image_cmp }
    ensures phrase { IsTotalOrder phrase_cmp }
    ensures shown { IsTotalOrder shown_cmp }
    ensures hits { IsTotalOrder shown_hit_cmp }
    ensures image_parts { (row other : Row)
        → image_cmp row other
        ≡ ordering_then (nat_cmp (length row.key) (length other.key))
        (ordering_then (slice_cmp nat_cmp row.key other.key) (slice_cmp nat_cmp row.phrase other.phrase)) }
    ensures image_ties { (row other : Row) → image_cmp row other ≡ Equal → (row.key ≡ other.key) × (row.phrase ≡ other.phrase) }
{}

/// Rows with no pair twice, as a map's are: each row is what the look-up of its pair finds, and the
/// rows of a key are the only sorted list of these rows, by phrase bytes and as they are shown. Of a
/// map the rows of a key are in the order of phrase bytes already.
pub fn rows_with_no_pair_twice()
    ensures map { (rows : List Row) → is_map rows ≡ true → no_pair_twice rows ≡ true }
    ensures found { (rows : List Row) (row : Row) → no_pair_twice rows ≡ true → Contains rows row → row_of rows row.key row.phrase ≡ Some row }
    ensures phrases { (rows : List Row) (key : List ℕ) (ys : List Row) → no_pair_twice rows ≡ true → IsPermutation (rows_under rows key) ys
        → IsSorted phrase_cmp ys → rows_of rows key ≡ ys }
    ensures shown { (rows : List Row) (key : List ℕ) (ys : List Row) → no_pair_twice rows ≡ true → IsPermutation (rows_under rows key) ys
        → IsSorted shown_cmp ys → in_order shown_cmp (rows_under rows key) ≡ ys }
    ensures already { (rows : List Row) (key : List ℕ) → is_map rows ≡ true → rows_of rows key ≡ rows_under rows key }
{}

/// The greatest frequency of a key is that of one of its rows, or 0, and neither a row of the key
/// nor the look-up of a pair has one above it.
pub fn greatest_of_a_key()
    ensures rows { (rows : List Row) (key : List ℕ) (row : Row) → Contains (rows_under rows key) row → row.freq ≤ peak_of rows key }
    ensures pair { (rows : List Row) (key phrase : List ℕ) → freq_of rows key phrase ≤ peak_of rows key }
    ensures reached { (rows : List Row) (key : List ℕ)
        → (peak_of rows key ≡ 0) ⊎ ((row : Row) × Contains (rows_under rows key) row × (row.freq ≡ peak_of rows key)) }
{}

/// What rows answer, with no condition on them: the look-up of a pair finds one of the rows, of that
/// pair, and None only where there is none; the frequency of a pair is its row's, or 0; the rows under a key are those that have it; and a
/// syllable has a row by itself exactly where a row has it as its key.
pub fn look_ups_of_rows()
    ensures found { (rows : List Row) (key phrase : List ℕ) (row : Row) → row_of rows key phrase ≡ Some row
        → Contains rows row × (row.key ≡ key) × (row.phrase ≡ phrase) }
    ensures none { (rows : List Row) (key phrase : List ℕ) (row : Row) → row_of rows key phrase ≡ None → Contains rows row → row.key ≡ key
        → row.phrase ≢ phrase }
    ensures freq { (rows : List Row) (key phrase : List ℕ) (row : Row) → row_of rows key phrase ≡ Some row → freq_of rows key phrase ≡ row.freq }
    ensures no_freq { (rows : List Row) (key phrase : List ℕ) → row_of rows key phrase ≡ None → freq_of rows key phrase ≡ 0 }
    ensures under { (rows : List Row) (key : List ℕ) (row : Row) → Contains (rows_under rows key) row ↔ (Contains rows row × (row.key ≡ key)) }
    ensures single { (rows : List Row) (code : ℕ) → (has_single rows code ≡ true) ↔ ((row : Row) × Contains rows row × (row.key ≡ code ∷ [])) }
{}
