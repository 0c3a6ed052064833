//! The largest image: 250,000 rows.

ghost use Rattle.std.specs.Prelude.{◌≤◌};

use crate::one_row::{place_of, written};
use chew_plain::Lexicon;
use chew_syllable::{Key, KeyRow, Phrase, Syllable};
use chew_trie_read::Trie;
use std::alloc::Global;
use std::test::Fail;

/// The first 500 syllables by rising code.
fn syllables(alloc: Global) -> Result<Vec<Syllable>, Fail> {
    let mut found = Vec::new(alloc);
    for code in 0..u16::MAX {
        if found.len() < 500 {
            if let Some(syllable) = Syllable::from_code(code) {
                found.push(syllable)?;
            }
        }
    }
    Ok(found)
}

/// 測試 under the two syllables, with a frequency.
fn pair_row(first: Syllable, second: Syllable, freq: u32) -> Result<KeyRow, Fail>
    requires { freq ≤ 99_999_999 }
{
    let Some(key) = Key::of(&[first, second]) else {
        return Err(Fail::new("no key"));
    };
    let Ok(phrase) = Phrase::read("測試".as_bytes()) else {
        return Err(Fail::new("no phrase"));
    };
    if phrase.characters() != key.len() {
        return Err(Fail::new("no pair"));
    }
    Ok(KeyRow {
        key,
        phrase,
        freq,
        time: 0,
    })
}

/// Row i has the syllables at i / 500 and at i mod 500, and the frequency i.
fn many_rows(alloc: Global, syllables: &[Syllable]) -> Result<Vec<KeyRow>, Fail> {
    let mut rows = Vec::new(alloc);
    let mut freq = 0;
    for first in syllables {
        for second in syllables {
            if freq < 250_000 {
                rows.push(pair_row(*first, *second, freq)?)?;
                freq += 1;
            }
        }
    }
    Ok(rows)
}

/// The frequency of the one row of a key; `None` where it has not one row.
fn only_freq(trie: &Trie, key: &[Syllable]) -> Option<u32> {
    if trie.count(key) != 1 {
        return None;
    }
    Some(trie.row(key, 0).freq)
}

/// Whether row i is found by its key, for each i.
fn all_are_found(trie: &Trie, syllables: &[Syllable]) -> bool {
    let mut freq = 0u32;
    for first in syllables {
        for second in syllables {
            if only_freq(trie, &[*first, *second]) != Some(freq) {
                return false;
            }
            freq = freq.wrapping_add(1);
        }
    }
    freq == 250_000
}

#[test]
fn the_most_rows_are_written_and_found(rt: HostRuntime) -> Result<(), Fail> {
    let syllables = syllables(rt.alloc())?;
    let rows = many_rows(rt.alloc(), &syllables)?;
    let image = written(rt.alloc(), &rows)?;
    assert_eq!(rt; image.len(), 10_508_036);
    assert_eq!(rt;
        image.get(12..16),
        Some([0x85, 0xd2, 0x03, 0x00].as_slice())
    );
    assert_eq!(rt; place_of(&image), None);
    let Ok(trie) = Trie::of(image) else {
        return Err(Fail::new("no image"));
    };
    assert_eq!(rt; trie.total(), 250_000);
    for _ in 0..4 {
        assert!(rt; all_are_found(&trie, &syllables));
    }
    Ok(())
}
