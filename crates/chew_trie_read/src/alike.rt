//! What two dictionaries with the same rows answer, as an image and a list of rows in memory: the same.

ghost use Rattle.std.specs.Prelude.{◌≡◌, ◌<◌, Some, length, slice_get};
ghost use Rattle.chew_spec_dictionary.specs.System.{freq_of, has_single, peak_of, rows_of};

use chew_plain::{Lexicon, RowRef};
use chew_syllable::Syllable;

/// How many rows of a key each has.
pub fn counts<A: Lexicon, B: Lexicon>(one: &A, other: &B, key: &[Syllable]) -> (u32, u32)
    requires { A.rows one.now ≡ B.rows other.now }
    ensures value { result.0 ≡ length (rows_of (A.rows one.now) key.now) }
    ensures same { result.0 ≡ result.1 }
{
    let count = one.count(key);
    let same = other.count(key);
    (count, same)
}

/// A row of a key in each, counted from 0.
pub fn rows<'a, A: Lexicon, B: Lexicon>(
    one: &'a A,
    other: &'a B,
    key: &[Syllable],
    i: u32,
) -> (RowRef<'a>, RowRef<'a>)
    requires rows { A.rows one.now ≡ B.rows other.now }
    requires there { i < length (rows_of (A.rows one.now) key.now) }
    ensures value { slice_get (rows_of (A.rows one.now) key.now) i
        ≡ Some (record { key = key.now; phrase = result.0.phrase.now; freq = result.0.freq; time = result.0.time }) }
    ensures phrase { result.0.phrase.now ≡ result.1.phrase.now }
    ensures freq { result.0.freq ≡ result.1.freq }
    ensures time { result.0.time ≡ result.1.time }
{
    let row = one.row(key, i);
    let same = other.row(key, i);
    (row, same)
}

/// Whether a syllable has a row by itself in each.
pub fn singles<A: Lexicon, B: Lexicon>(one: &A, other: &B, syllable: Syllable) -> (bool, bool)
    requires { A.rows one.now ≡ B.rows other.now }
    ensures value { result.0 ≡ has_single (A.rows one.now) syllable }
    ensures same { result.0 ≡ result.1 }
{
    let single = one.has_single(syllable);
    let same = other.has_single(syllable);
    (single, same)
}

/// The frequency of a pair and the greatest of its key in each.
pub fn frequencies<A: Lexicon, B: Lexicon>(
    one: &A,
    other: &B,
    key: &[Syllable],
    phrase: &str,
) -> ((u32, u32), (u32, u32))
    requires { A.rows one.now ≡ B.rows other.now }
    ensures value { result.0 ≡ (freq_of (A.rows one.now) key.now phrase.now, peak_of (A.rows one.now) key.now) }
    ensures orig { result.0.0 ≡ result.1.0 }
    ensures peak { result.0.1 ≡ result.1.1 }
{
    let found = one.orig_and_peak(key, phrase);
    let same = other.orig_and_peak(key, phrase);
    (found, same)
}
