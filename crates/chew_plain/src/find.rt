ghost use Rattle.std.specs.Prelude.{◌≡◌, ◌-◌, ◌≤◌, IsTrue, drop, length, take};
ghost use Rattle.std.specs.List.{find};
ghost use Rattle.std.specs.Option.{option_map_or};
ghost use Rattle.std.specs.Str.{bytes_eq};
ghost use Rattle.chew_spec_dictionary.specs.Dictionary.{is_map};
ghost use Rattle.chew_spec_dictionary.specs.System.{greatest, rows_under};

use crate::order::key_order;
use chew_syllable::{KeyRow, Syllable};
use std::cmp::max;
use std::ops::Range;

/// The places of a key's rows among those of a map, where they stand together.
pub(crate) fn places_at(rows: &[KeyRow], key: &[Syllable]) -> Range<usize>
    requires { IsTrue (is_map rows.now) }
    ensures order { result.start ≤ result.end }
    ensures end { result.end ≤ length rows.now }
    ensures value { take (result.end - result.start) (drop result.start rows.now) ≡ rows_under rows.now key.now }
{
    let low = rows.partition_point(|row| key_order(row.key.list(), key).is_lt());
    let rest = &rows[low..];
    let count = rest.partition_point(|row| !key_order(key, row.key.list()).is_lt());
    low..low + count
}

/// The rows of a key among those of a map.
pub(crate) fn rows_at<'a>(rows: &'a [KeyRow], key: &[Syllable]) -> &'a [KeyRow]
    requires { IsTrue (is_map rows.now) }
    ensures { result.now ≡ rows_under rows.now key.now }
{
    let places = places_at(rows, key);
    &rows[places.start..places.end]
}

/// The frequency of the first of these rows that has the phrase, or 0.
pub(crate) fn freq_among(rows: &[KeyRow], phrase: &str) -> u32
    ensures { result ≡ option_map_or (λ row. row.freq) (find (λ row. bytes_eq row.phrase phrase.now) rows.now) 0 }
{
    for row in rows {
        if row.phrase.text() == phrase {
            return row.freq;
        }
    }
    0
}

/// The greatest frequency of these rows, or 0.
pub(crate) fn peak_among(rows: &[KeyRow]) -> u32
    ensures { result ≡ greatest rows.now }
{
    let mut peak = 0;
    for row in rows {
        peak = max(peak, row.freq);
    }
    peak
}
