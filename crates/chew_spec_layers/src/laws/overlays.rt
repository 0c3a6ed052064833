//! Laws of a map with a layer over it.

ghost use Rattle.std.specs.Prelude.{◌≡◌, ℕ, List, [], true, Some, None};
ghost use Rattle.chew_spec_syllable.specs.Row.{Row};
ghost use Rattle.chew_spec_dictionary.specs.System.{row_of};
ghost use Rattle.chew_spec_dictionary.specs.Dictionary.{is_map};
ghost use Rattle.chew_spec_layers.specs.Mark.{Marked, Live, Grave, is_layer, mark_of};
ghost use Rattle.chew_spec_layers.specs.Overlay.{overlay, says_over};

/// A layer over a map gives a map. A pair with a live mark has its frequency and time, one with a grave has none, and one
/// without a mark has the row that it had.
pub fn maps_under_a_layer()
    ensures map { (rows : List Row) (marks : List Marked) → is_map rows ≡ true → is_layer marks ≡ true → is_map (overlay rows marks) ≡ true }
    ensures live { (rows : List Row) (marks : List Marked) (key phrase : List ℕ) (freq time : ℕ) → is_map rows ≡ true → is_layer marks ≡ true
        → mark_of marks key phrase ≡ Some (Live freq time)
        → row_of (overlay rows marks) key phrase ≡ Some (record { key = key; phrase = phrase; freq = freq; time = time }) }
    ensures grave { (rows : List Row) (marks : List Marked) (key phrase : List ℕ) → is_map rows ≡ true → is_layer marks ≡ true
        → mark_of marks key phrase ≡ Some Grave → row_of (overlay rows marks) key phrase ≡ None }
    ensures unmarked { (rows : List Row) (marks : List Marked) (key phrase : List ℕ) → is_map rows ≡ true → is_layer marks ≡ true
        → mark_of marks key phrase ≡ None → row_of (overlay rows marks) key phrase ≡ row_of rows key phrase }
    ensures nothing { (rows : List Row) → is_map rows ≡ true → overlay rows [] ≡ rows }
{}

/// Two layers over a map: the newer one says what it has a mark for, then the older one, then the map. Where the newer one
/// has a mark for each pair of the older, the older one doesn't count.
pub fn two_layers()
    ensures says { (rows : List Row) (older newer : List Marked) (key phrase : List ℕ) → is_map rows ≡ true → is_layer older ≡ true
        → is_layer newer ≡ true → row_of (overlay (overlay rows older) newer) key phrase
        ≡ says_over newer key phrase (says_over older key phrase (row_of rows key phrase)) }
    ensures covered { (rows : List Row) (older newer : List Marked) → is_map rows ≡ true → is_layer older ≡ true → is_layer newer ≡ true
        → ((key phrase : List ℕ) → mark_of newer key phrase ≡ None → mark_of older key phrase ≡ None)
        → overlay (overlay rows older) newer ≡ overlay rows newer }
{}
