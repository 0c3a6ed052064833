ghost use Rattle.std.specs.Prelude.{◌≡◌, ℕ, ◌-◌, ◌<◌, ◌≤◌, IsTrue, List, drop, length, slice_get, take};
ghost use Rattle.std.specs.List.{list_all};
ghost use Rattle.chew_spec_syllable.specs.Row.{Row, is_pair, is_row, no_pair_twice};
ghost use Rattle.chew_spec_dictionary.specs.System.{rows_of, has_single, freq_of, peak_of};

use chew_syllable::Syllable;
use std::ops::Range;

/// A row of a key, its phrase lent.
#[derive(Clone, Copy, Debug)]
pub struct RowRef<'a> {
    /// Lent from the dictionary.
    pub phrase: &'a str,
    /// At most 99,999,999.
    pub freq: u32,
    /// The life of the dictionary at the last learn; 0 in a system.
    pub time: u64,
}

/// A list of rows with no pair twice, asked by the rows' keys: the rows of a key stand together. `places` says so of
/// the whole list. No call takes memory.
pub trait Lexicon {
    ghost rows: { Self → List Row };

    /// The places of the key's rows among all rows, where they stand in the order of their phrases' bytes.
    fn places(&self, key: &[Syllable]) -> Range<u32>
        ensures order { result.start ≤ result.end }
        ensures end { result.end ≤ length (rows self.now) }
        ensures value { take (result.end - result.start) (drop result.start (rows self.now)) ≡ rows_of (rows self.now) key.now }
        ensures each { IsTrue (list_all is_row (rows self.now)) }
        ensures pairs { IsTrue (no_pair_twice (rows self.now)) };

    /// The row at a place among all rows; its key is known from the place.
    fn row_at(&self, place: u32) -> RowRef<'_>
        requires { place < length (rows self.now) }
        ensures { (key : List ℕ)
            × (slice_get (rows self.now) place ≡ Some (record { key = key; phrase = result.phrase.now; freq = result.freq; time = result.time })) };

    /// How many rows the key has.
    fn count(&self, key: &[Syllable]) -> u32
        ensures value { result ≡ length (rows_of (rows self.now) key.now) }
        ensures each { IsTrue (list_all is_row (rows self.now)) }
        ensures pairs { IsTrue (no_pair_twice (rows self.now)) }
    {
        let places = self.places(key);
        places.end - places.start
    }

    /// A row of the key, counted from 0 in the order of the phrases' bytes.
    fn row(&self, key: &[Syllable], i: u32) -> RowRef<'_>
        requires { i < length (rows_of (rows self.now) key.now) }
        ensures ok { slice_get (rows_of (rows self.now) key.now) i
            ≡ Some (record { key = key.now; phrase = result.phrase.now; freq = result.freq; time = result.time }) }
        ensures valid { IsTrue (is_pair key.now result.phrase.now) }
        ensures freq { result.freq ≤ 99_999_999 }
    {
        let places = self.places(key);
        self.row_at(places.start + i)
    }

    /// Whether the syllable by itself has a row.
    fn has_single(&self, s: Syllable) -> bool
        ensures { result ≡ has_single (rows self.now) s };

    /// The frequency of the pair, and the greatest frequency of its key; 0 where there is none.
    fn orig_and_peak(&self, key: &[Syllable], phrase: &str) -> (u32, u32)
        ensures orig { result.0 ≡ freq_of (rows self.now) key.now phrase.now }
        ensures peak { result.1 ≡ peak_of (rows self.now) key.now };
}
