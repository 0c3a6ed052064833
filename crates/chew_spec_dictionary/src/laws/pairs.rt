//! Laws of a map's pairs.

ghost use Rattle.std.specs.Prelude.{◌≡◌, ◌≢◌, ℕ, List, Some, None};
ghost use Rattle.chew_spec_syllable.specs.Row.{Row};
ghost use Rattle.chew_spec_dictionary.specs.System.{row_of};
ghost use Rattle.chew_spec_dictionary.specs.Dictionary.{put_row, without};

/// What is found once a row was put in or a pair was taken out: that pair changed, and no other.
pub fn one_pair_changes()
    ensures put { (row : Row) (rows : List Row) → row_of (put_row row rows) row.key row.phrase ≡ Some row }
    ensures put_others { (row : Row) (rows : List Row) (key phrase : List ℕ) → (row.key ≡ key → row.phrase ≢ phrase)
        → row_of (put_row row rows) key phrase ≡ row_of rows key phrase }
    ensures gone { (key phrase : List ℕ) (rows : List Row) → row_of (without key phrase rows) key phrase ≡ None }
    ensures gone_others { (key phrase : List ℕ) (rows : List Row) (k p : List ℕ) → (key ≡ k → phrase ≢ p)
        → row_of (without key phrase rows) k p ≡ row_of rows k p }
{}
