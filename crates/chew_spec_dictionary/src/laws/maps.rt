//! Laws of maps: lists of rows in image order, no pair twice.

ghost use Rattle.std.specs.Prelude.{◌≡◌, ℕ, List, true};
ghost use Rattle.chew_spec_syllable.specs.Row.{Row, image_cmp, no_pair_twice};
ghost use Rattle.chew_spec_dictionary.specs.Order.{in_order};
ghost use Rattle.chew_spec_dictionary.specs.Call.{Call};
ghost use Rattle.chew_spec_dictionary.specs.System.{row_of};
ghost use Rattle.chew_spec_dictionary.specs.Dictionary.{Dictionary, is_map, learn, forget, hide};
ghost use Rattle.chew_spec_dictionary.specs.History.{Point, Entry, answer, after};

/// Every call leaves the rows in image order with no pair twice, and so does every history.
pub fn maps_stay_maps()
    ensures learn { (had : Dictionary) (key phrase : List ℕ) (orig peak : ℕ) → is_map had.pairs ≡ true
        → is_map (learn had key phrase orig peak).left.pairs ≡ true }
    ensures forget { (had : Dictionary) (key phrase : List ℕ) → is_map had.pairs ≡ true → is_map (forget had key phrase).left.pairs ≡ true }
    ensures hide { (had : Dictionary) (key phrase : List ℕ) → is_map had.pairs ≡ true → is_map (hide had key phrase).left.pairs ≡ true }
    ensures answer { (p : Point) (call : Call) → is_map p.dictionary.pairs ≡ true → is_map (answer p call).point.dictionary.pairs ≡ true }
    ensures after { (p : Point) (h : List Entry) → is_map p.dictionary.pairs ≡ true → is_map (after p h).dictionary.pairs ≡ true }
{}

/// A map is what its look-ups answer: two maps that answer alike are one list.
pub fn maps_by_look_ups()
    ensures same { (rows others : List Row) → is_map rows ≡ true → is_map others ≡ true
        → ((key phrase : List ℕ) → row_of rows key phrase ≡ row_of others key phrase) → rows ≡ others }
{}

/// Rows with no pair twice, in any order, are a map once they are put in image order, and its
/// look-ups answer as the rows' do. A map is in image order already.
pub fn maps_of_rows()
    ensures map { (rows : List Row) → no_pair_twice rows ≡ true → is_map (in_order image_cmp rows) ≡ true }
    ensures already { (rows : List Row) → is_map rows ≡ true → in_order image_cmp rows ≡ rows }
    ensures answers { (rows : List Row) (key phrase : List ℕ) → no_pair_twice rows ≡ true
        → row_of (in_order image_cmp rows) key phrase ≡ row_of rows key phrase }
{}
