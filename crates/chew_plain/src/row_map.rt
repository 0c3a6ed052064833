ghost use Rattle.std.specs.Prelude.{◌≡◌, ◌-◌, ◌<◌, ◌≤◌, ◌^◌, IsTrue, IfOk, drop, length, take};
ghost use Rattle.std.specs.List.{list_all};
ghost use Rattle.chew_spec_syllable.specs.Row.{image_cmp, is_row, no_pair_twice};
ghost use Rattle.chew_spec_dictionary.specs.Dictionary.{is_map};
ghost use Rattle.chew_spec_dictionary.specs.Order.{in_order};
ghost use Rattle.chew_spec_dictionary.specs.System.{rows_of, rows_under};

use crate::find::{freq_among, peak_among, places_at, rows_at};
use crate::kept::all_are_rows;
use crate::lexicon::{Lexicon, RowRef};
use crate::order::sort_rows;
use chew_syllable::{KeyRow, NoMemory, Syllable};
use std::marker::Model;
use std::ops::Range;

/// Rows in image order, in memory: by the length of the key, then its syllables, then the phrase's bytes.
#[derive(Debug, Drop)]
pub struct RowMap {
    rows: Vec<KeyRow>,
}

impl Model for RowMap {
    ghost use Rattle.std.specs.Prelude.{◌<◌, ◌^◌, IsTrue, List, length};
    ghost use Rattle.std.specs.List.{list_all};
    ghost use Rattle.chew_spec_syllable.specs.Row.{Row, is_row};
    ghost use Rattle.chew_spec_dictionary.specs.Dictionary.{is_map};

    ghost Value = { List Row };

    ghost view = { λ map. map.rows.items };

    ghost invariant = { λ map. IsTrue (is_map map.rows.items) × IsTrue (list_all is_row map.rows.items) × (length map.rows.items < 2 ^ 32) };
}

impl RowMap {
    /// The rows, put in image order.
    pub fn of(mut rows: Vec<KeyRow>) -> Result<RowMap, NoMemory>
        requires pairs { IsTrue (no_pair_twice rows.items) }
        requires few { length rows.items < 2 ^ 32 }
        ensures value { IfOk result (λ map. map ≡ in_order image_cmp rows.items) }
        ensures map { IfOk result (λ map. IsTrue (is_map map)) }
    {
        sort_rows(&mut rows)?;
        all_are_rows(rows.as_slice());
        Ok(RowMap { rows })
    }

    /// The places of a key's rows.
    fn places_of(&self, key: &[Syllable]) -> Range<usize>
        ensures order { result.start ≤ result.end }
        ensures end { result.end ≤ length self.now }
        ensures value { take (result.end - result.start) (drop result.start self.now) ≡ rows_of self.now key.now }
        ensures few { length self.now < 2 ^ 32 }
        ensures each { IsTrue (list_all is_row self.now) }
        ensures map { IsTrue (is_map self.now) }
    {
        places_at(self.rows.as_slice(), key)
    }

    /// The rows of a key.
    fn found(&self, key: &[Syllable]) -> &[KeyRow]
        ensures { result.now ≡ rows_under self.now key.now }
    {
        rows_at(self.rows.as_slice(), key)
    }
}

impl Lexicon for RowMap {
    ghost rows = { λ map. map };

    fn places(&self, key: &[Syllable]) -> Range<u32> {
        let places = self.places_of(key);
        places.start as u32..places.end as u32
    }

    fn row_at(&self, place: u32) -> RowRef<'_> {
        let row = &self.rows[place as usize];
        RowRef {
            phrase: row.phrase.text(),
            freq: row.freq,
            time: row.time,
        }
    }

    fn has_single(&self, s: Syllable) -> bool {
        !self.found(&[s]).is_empty()
    }

    fn orig_and_peak(&self, key: &[Syllable], phrase: &str) -> (u32, u32) {
        let found = self.found(key);
        (freq_among(found, phrase), peak_among(found))
    }
}
