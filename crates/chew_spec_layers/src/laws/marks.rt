//! Laws of the marks of a layer.

ghost use Rattle.std.specs.Prelude.{◌≡◌, ◌≢◌, ◌≤◌, ℕ, List, true, Some};
ghost use Rattle.std.specs.List.{list_all};
ghost use Rattle.chew_spec_syllable.specs.Row.{Row, is_pair, is_row};
ghost use Rattle.chew_spec_layers.specs.Mark.{Live, Grave, Marked, is_layer, is_proper_mark, mark_of, put_mark, row_of_mark};

/// A mark that is put into a layer is that of its pair, in place of an older one, no other pair's mark changes, and the
/// layer stays one.
pub fn one_mark_changes()
    ensures put { (marked : Marked) (marks : List Marked) → mark_of (put_mark marked marks) marked.key marked.phrase ≡ Some marked.mark }
    ensures others { (marked : Marked) (marks : List Marked) (key phrase : List ℕ) → (marked.key ≡ key → marked.phrase ≢ phrase)
        → mark_of (put_mark marked marks) key phrase ≡ mark_of marks key phrase }
    ensures layer { (marked : Marked) (marks : List Marked) → is_layer marks ≡ true → is_layer (put_mark marked marks) ≡ true }
    ensures proper { (marked : Marked) (marks : List Marked) → is_proper_mark marked ≡ true → list_all is_proper_mark marks ≡ true
        → list_all is_proper_mark (put_mark marked marks) ≡ true }
{}

/// Which marks are proper: those of a phrase with as many characters as its key has syllables, with a frequency up to
/// 99,999,999 where they are live.
pub fn proper_marks()
    ensures live { (key phrase : List ℕ) (freq time : ℕ) → is_pair key phrase ≡ true → freq ≤ 99_999_999
        → is_proper_mark (record { key = key; phrase = phrase; mark = Live freq time }) ≡ true }
    ensures grave { (key phrase : List ℕ) → is_pair key phrase ≡ true
        → is_proper_mark (record { key = key; phrase = phrase; mark = Grave }) ≡ true }
    ensures pair { (marked : Marked) → is_proper_mark marked ≡ true → is_pair marked.key marked.phrase ≡ true }
    ensures row { (marked : Marked) (row : Row) → is_proper_mark marked ≡ true → row_of_mark marked.key marked.phrase marked.mark ≡ Some row
        → is_row row ≡ true }
{}
