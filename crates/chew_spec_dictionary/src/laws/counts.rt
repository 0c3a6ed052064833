//! Laws of how many pairs a map holds.

ghost use Rattle.std.specs.Prelude.{◌≡◌, ℕ, ◌+◌, ◌≤◌, ◌<◌, List, length, true, Some, None, is_some, if◌then◌else◌};
ghost use Rattle.chew_spec_syllable.specs.Row.{Row};
ghost use Rattle.chew_spec_dictionary.specs.System.{row_of};
ghost use Rattle.chew_spec_dictionary.specs.Dictionary.{Dictionary, is_map, put_row, learn, forget, hide};
ghost use Rattle.chew_spec_dictionary.specs.History.{Point, Entry, after};

/// A learn or a hide of a pair that is held leaves as many pairs, one of a new pair that finds room
/// leaves one more, a forget of a held one leaves one less, and no history fills a map beyond its cap.
pub fn counts_of_pairs()
    ensures put { (row : Row) (rows : List Row) → is_map rows ≡ true
        → length (put_row row rows) ≡ length rows + (if is_some (row_of rows row.key row.phrase) then 0 else 1) }
    ensures held { (had : Dictionary) (key phrase : List ℕ) (orig peak : ℕ) (row : Row) → is_map had.pairs ≡ true
        → row_of had.pairs key phrase ≡ Some row → length (learn had key phrase orig peak).left.pairs ≡ length had.pairs }
    ensures new { (had : Dictionary) (key phrase : List ℕ) (orig peak : ℕ) → is_map had.pairs ≡ true → row_of had.pairs key phrase ≡ None
        → length had.pairs < had.cap → length (learn had key phrase orig peak).left.pairs ≡ length had.pairs + 1 }
    ensures forgot { (had : Dictionary) (key phrase : List ℕ) (row : Row) → is_map had.pairs ≡ true → row_of had.pairs key phrase ≡ Some row
        → length (forget had key phrase).left.pairs + 1 ≡ length had.pairs }
    ensures hidden { (had : Dictionary) (key phrase : List ℕ) (row : Row) → is_map had.pairs ≡ true → row_of had.pairs key phrase ≡ Some row
        → length (hide had key phrase).left.pairs ≡ length had.pairs }
    ensures new_hidden { (had : Dictionary) (key phrase : List ℕ) → is_map had.pairs ≡ true → row_of had.pairs key phrase ≡ None
        → length had.pairs < had.cap → length (hide had key phrase).left.pairs ≡ length had.pairs + 1 }
    ensures within { (p : Point) (h : List Entry) → is_map p.dictionary.pairs ≡ true → length p.dictionary.pairs ≤ p.dictionary.cap
        → length (after p h).dictionary.pairs ≤ (after p h).dictionary.cap }
{}
