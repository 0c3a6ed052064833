//! As many rows, and as many hits of one interval, as a system has at most, put in order.

use chew_plain::{Hit, sort_hits, sort_rows};
use chew_syllable::{GREATEST_FREQ, Key, KeyRow, Phrase, Syllable};
use std::alloc::Global;
use std::test::Fail;

/// The most rows of a system.
const MOST: u32 = 250_000;

/// The first 500 syllables by rising code.
fn syllables(alloc: Global) -> Result<Vec<Syllable>, Fail> {
    let mut found = Vec::new(alloc);
    for code in 0..u16::MAX {
        if found.len() < 500 {
            if let Some(syllable) = Syllable::from_code(code) {
                found.push(syllable)?;
            }
        }
    }
    Ok(found)
}

/// The row of a number: 測試 under the syllables at number / 500 and at number mod 500, and the number as its frequency.
fn row_of(syllables: &[Syllable], number: u32) -> Result<KeyRow, Fail> {
    let Some(first) = syllables.get((number / 500) as usize) else {
        return Err(Fail::new("no syllable"));
    };
    let Some(second) = syllables.get((number % 500) as usize) else {
        return Err(Fail::new("no syllable"));
    };
    let (Some(key), Ok(phrase)) = (Key::of(&[*first, *second]), Phrase::read("測試".as_bytes()))
    else {
        return Err(Fail::new("no pair"));
    };
    if phrase.characters() != key.len() || number > GREATEST_FREQ {
        return Err(Fail::new("no row"));
    }
    Ok(KeyRow {
        key,
        phrase,
        freq: number,
        time: 0,
    })
}

/// The most rows, the last of the order first.
fn falling_rows(alloc: Global, syllables: &[Syllable]) -> Result<Vec<KeyRow>, Fail> {
    let mut rows = Vec::new(alloc);
    for place in 1..MOST + 1 {
        rows.push(row_of(syllables, MOST.saturating_sub(place))?)?;
    }
    Ok(rows)
}

/// Whether they have the numbers from 0 on, in their order, once they are put in order.
fn rows_rise(rows: &mut Vec<KeyRow>) -> Result<bool, Fail> {
    sort_rows(rows)?;
    let mut number = 0u32;
    for row in rows.iter() {
        if row.freq != number {
            return Ok(false);
        }
        number = number.saturating_add(1);
    }
    Ok(number == MOST)
}

/// 是 with a frequency, as a look-up of its syllable finds it.
fn hit_of(freq: u32) -> Result<Hit, Fail> {
    let Ok(phrase) = Phrase::read("是".as_bytes()) else {
        return Err(Fail::new("no phrase"));
    };
    if phrase.characters() != 1 || freq > GREATEST_FREQ {
        return Err(Fail::new("no hit"));
    }
    Ok(Hit {
        start: 0,
        len: 1,
        phrase,
        freq,
        hidden: false,
    })
}

/// The most hits, the least frequent first.
fn rising_hits(alloc: Global) -> Result<Vec<Hit>, Fail> {
    let mut hits = Vec::new(alloc);
    for freq in 0..MOST {
        hits.push(hit_of(freq)?)?;
    }
    Ok(hits)
}

/// Whether their frequencies fall one by one to 0 once they are put in order.
fn hits_fall(hits: &mut Vec<Hit>) -> Result<bool, Fail> {
    sort_hits(hits)?;
    let mut left = MOST;
    for hit in hits.iter() {
        left = left.saturating_sub(1);
        if hit.freq != left {
            return Ok(false);
        }
    }
    Ok(left == 0 && hits.len() == 250_000)
}

#[test]
fn the_most_rows_are_put_in_image_order(rt: HostRuntime) -> Result<(), Fail> {
    let syllables = syllables(rt.alloc())?;
    let mut rows = falling_rows(rt.alloc(), &syllables)?;
    assert!(rt; rows_rise(&mut rows)?);
    Ok(())
}

#[test]
fn the_most_hits_are_put_in_the_order_shown(rt: HostRuntime) -> Result<(), Fail> {
    let mut hits = rising_hits(rt.alloc())?;
    assert!(rt; hits_fall(&mut hits)?);
    Ok(())
}
