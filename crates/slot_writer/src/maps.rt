//! The map of each number: some thousands of rows, more or fewer by the number, which they have as their frequency.

ghost use Rattle.std.specs.Prelude.{◌≤◌};

use crate::failure::Failure;
use crate::order::rises;
use chew_syllable::{Key, KeyRow, Phrase, SYSTEM_ROWS_LIMIT, Syllable};
use chew_trie_write::write_image;
use std::alloc::Global;

/// The number of rows is a square, of this number and up to so many more.
const LEAST_SIDE: u64 = 40;

const SIDES: u64 = 20;

// The first syllables by rising code.
fn syllables(alloc: Global, count: u64) -> Result<Vec<Syllable>, Failure> {
    let mut found = Vec::new(alloc);
    for code in 0..u16::MAX {
        if (found.len() as u64) < count {
            if let Some(syllable) = Syllable::from_code(code) {
                found.push(syllable)?;
            }
        }
    }
    Ok(found)
}

// 測試 under two syllables.
fn pair_row(first: Syllable, second: Syllable, freq: u32) -> Result<KeyRow, Failure>
    requires { freq ≤ 99_999_999 }
{
    let Some(key) = Key::of(&[first, second]) else {
        return Err(Failure::OtherMap);
    };
    let Ok(phrase) = Phrase::read("測試".as_bytes()) else {
        return Err(Failure::OtherMap);
    };
    if phrase.characters() != key.len() {
        return Err(Failure::OtherMap);
    }
    Ok(KeyRow {
        key,
        phrase,
        freq,
        time: 0,
    })
}

// A row for each pair of syllables.
fn rows(alloc: Global, syllables: &[Syllable], freq: u32) -> Result<Vec<KeyRow>, Failure>
    requires { freq ≤ 99_999_999 }
{
    let mut rows = Vec::new(alloc);
    for first in syllables {
        for second in syllables {
            rows.push(pair_row(*first, *second, freq)?)?;
        }
    }
    Ok(rows)
}

// The number, from 0 again at a million.
fn freq_of(number: u64) -> u32
    ensures { result ≤ 99_999_999 }
{
    (number % 1_000_000) as u32
}

/// The image of the map of a number. That of 0 has no rows.
pub(crate) fn image_of(alloc: Global, number: u64) -> Result<Vec<u8>, Failure> {
    if number == 0 {
        return Ok(write_image(alloc, &[])?);
    }
    let syllables = syllables(alloc, LEAST_SIDE + number % SIDES)?;
    let rows = rows(alloc, &syllables, freq_of(number))?;
    if rows.len() > SYSTEM_ROWS_LIMIT as usize || !rises(&rows) {
        return Err(Failure::OtherMap);
    }
    Ok(write_image(alloc, &rows)?)
}
