ghost use Rattle.std.specs.Prelude.{◌≡◌, ◌-◌, ◌<◌, ◌≤◌, IsTrue, drop, length, take};
ghost use Rattle.std.specs.List.{find, list_all};
ghost use Rattle.std.specs.Option.{option_map_or};
ghost use Rattle.std.specs.Str.{bytes_eq};
ghost use Rattle.chew_spec_syllable.specs.Row.{is_row};
ghost use Rattle.chew_spec_dictionary.specs.Dictionary.{is_map};
ghost use Rattle.chew_spec_dictionary.specs.System.{greatest, rows_under};
ghost use Rattle.chew_spec_image.specs.NodeKeys.{node_keys};
ghost use Rattle.chew_trie_read.specs.Rest.{rows_between};
ghost use Rattle.chew_trie_read.specs.Search.{key_at};

use crate::find::find;
use crate::image::Image;
use chew_syllable::Syllable;
use std::cmp::max;
use std::ops::Range;

/// The places of a node's rows among all rows.
fn rows_of_node(image: &Image, i: u32) -> Range<u32>
    requires { i < length (node_keys image.now) }
    ensures order { result.start ≤ result.end }
    ensures end { result.end ≤ length image.now }
    ensures value { rows_between image.now result.start result.end ≡ rows_under image.now (key_at image.now i) }
{
    let _rows = image.rows();
    let node = image.node(i);
    node.first_row..node.first_row + node.rows
}

/// The places of a key's rows among all rows.
pub(crate) fn places_of(image: &Image, key: &[Syllable]) -> Range<u32>
    ensures order { result.start ≤ result.end }
    ensures end { result.end ≤ length image.now }
    ensures value { rows_between image.now result.start result.end ≡ rows_under image.now key.now }
    ensures map { IsTrue (is_map image.now) }
    ensures each { IsTrue (list_all is_row image.now) }
{
    let _rows = image.rows();
    match find(image, key) {
        Some(i) => rows_of_node(image, i),
        None => 0..0,
    }
}

/// The frequency of the first of the rows at these places that has the phrase, or 0.
pub(crate) fn freq_among(image: &Image, start: u32, end: u32, phrase: &str) -> u32
    requires order { start ≤ end }
    requires within { end ≤ length image.now }
    ensures { result ≡ option_map_or (λ row. row.freq) (find (λ row. bytes_eq row.phrase phrase.now) (rows_between image.now start end)) 0 }
{
    for place in start..end {
        let row = image.row(place);
        if row.phrase == phrase {
            return row.freq;
        }
    }
    0
}

/// The greatest frequency of the rows at these places, or 0.
pub(crate) fn peak_among(image: &Image, start: u32, end: u32) -> u32
    requires order { start ≤ end }
    requires within { end ≤ length image.now }
    ensures { result ≡ greatest (rows_between image.now start end) }
{
    let mut peak = 0;
    for place in start..end {
        peak = max(peak, image.row(place).freq);
    }
    peak
}
