//! Laws of what a look-up of a run finds.

ghost use Rattle.std.specs.Prelude.{◌≡◌, ℕ, ◌+◌, ◌≤◌, List, length, take, drop, true, Contains};
ghost use Rattle.std.specs.List.{AllAdjacentBelow, list_all};
ghost use Rattle.std.specs.declared.cmp.Ordering.TheVariants.{Less};
ghost use Rattle.chew_spec_syllable.specs.Row.{Row, is_row, no_pair_twice};
ghost use Rattle.chew_spec_dictionary.specs.Call.{Hit, is_hit};
ghost use Rattle.chew_spec_dictionary.specs.HiddenPairs.{is_hidden};
ghost use Rattle.chew_spec_dictionary.specs.Look.{Interval, intervals, hit_cmp, hits_of};

/// The intervals of a run are all of 1 to 11 syllables that lie in it.
pub fn intervals_of_a_run()
    ensures within { (n : ℕ) (at : Interval) → Contains (intervals n) at → (1 ≤ at.len) × (at.len ≤ 11) × (at.start + at.len ≤ n) }
    ensures all { (n : ℕ) (at : Interval) → (1 ≤ at.len) × (at.len ≤ 11) × (at.start + at.len ≤ n) → Contains (intervals n) at }
{}

/// What a look-up of a run finds is each row whose key is an interval of the run, with whether it is
/// hidden, and nothing else.
pub fn rows_of_a_run()
    ensures hit { (rows : List Row) (run : List ℕ) (hit : Hit) → Contains (hits_of rows run) hit
        → ((1 ≤ hit.len) × (hit.len ≤ 11) × (hit.start + hit.len ≤ length run)) × ((row : Row) × Contains rows row × (row.key
        ≡ take hit.len (drop hit.start run)) × (row.phrase ≡ hit.phrase) × (row.freq ≡ hit.freq) × (is_hidden row ≡ hit.hidden)) }
    ensures row { (rows : List Row) (run : List ℕ) (row : Row) (start len : ℕ) → Contains rows row
        → (1 ≤ len) × (len ≤ 11) × (start + len ≤ length run) → row.key ≡ take len (drop start run)
        → Contains (hits_of rows run) (record { start = start; len = len; phrase = row.phrase; freq = row.freq; hidden = is_hidden row }) }
{}

/// What a look-up of a run finds comes by start, then length, then frequency falling, then phrase
/// bytes, and no two are alike in these.
pub fn order_of_hits()
    ensures rising { (rows : List Row) (run : List ℕ) → no_pair_twice rows ≡ true
        → AllAdjacentBelow (λ hit next. hit_cmp hit next ≡ Less) (hits_of rows run) (length (hits_of rows run)) }
{}

/// What a look-up of a run finds among rows in range is in range.
pub fn hits_in_range()
    ensures { (rows : List Row) (run : List ℕ) → list_all is_row rows ≡ true → length run ≤ 39 → list_all is_hit (hits_of rows run) ≡ true }
{}
