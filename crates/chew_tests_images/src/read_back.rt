//! What was written is read back, and an image answers as the rows in memory do.

use crate::one_row::{BYTES, written};
use crate::order::rises;
use chew_plain::{Lexicon, RowMap, RowRef, sort_rows};
use chew_samples::{CE, SHI, five, syllable};
use chew_syllable::Syllable;
use chew_trie_read::{Trie, alike};
use std::alloc::Global;
use std::test::Fail;

/// The dictionary of bytes.
fn trie_of(bytes: Vec<u8>) -> Result<Trie, Fail> {
    match Trie::of(bytes) {
        Ok(trie) => Ok(trie),
        Err(_) => Err(Fail::new("no image")),
    }
}

/// The five rows in image order, as a dictionary in bytes and as one in memory.
fn both(alloc: Global) -> Result<(Trie, RowMap), Fail> {
    let mut rows = five(alloc)?;
    sort_rows(&mut rows)?;
    if !rises(&rows) {
        return Err(Fail::new("rows in no order"));
    }
    let trie = trie_of(written(alloc, &rows)?)?;
    Ok((trie, RowMap::of(rows)?))
}

/// Whether two rows are the same.
fn same(row: &RowRef, other: &RowRef) -> bool {
    (row.phrase, row.freq, row.time) == (other.phrase, other.freq, other.time)
}

/// Whether two dictionaries answer alike for a key.
fn answer_alike<A: Lexicon, B: Lexicon>(one: &A, other: &B, key: &[Syllable]) -> bool {
    let count = one.count(key);
    if count != other.count(key) {
        return false;
    }
    for i in 0..count {
        if !same(&one.row(key, i), &other.row(key, i)) {
            return false;
        }
    }
    ["測", "策", "是", "試", "測試"].iter().all(|phrase| one.orig_and_peak(key, phrase)
        == other.orig_and_peak(key, phrase))
}

#[test]
fn five_rows_are_read_back_in_image_order(rt: HostRuntime) -> Result<(), Fail> {
    let (trie, _) = both(rt.alloc())?;
    let mut text = String::new(rt.alloc());
    for (key, row) in trie.each() {
        text.push_str(row.phrase)?;
        text.push_str(if key.len() == 2 { "2 " } else { "1 " })?;
    }
    assert_eq!(rt; text.as_str(), "是1 試1 測1 策1 測試2 ");
    assert_eq!(rt; trie.total(), 5);
    assert_eq!(rt; trie.bytes().len(), 202);
    Ok(())
}

#[test]
fn rows_of_a_key_are_lent(rt: HostRuntime) -> Result<(), Fail> {
    let (trie, _) = both(rt.alloc())?;
    let mut text = String::new(rt.alloc());
    for row in trie.rows(&[syllable(CE)]) {
        text.push_str(row.phrase)?;
    }
    assert_eq!(rt; text.as_str(), "測策");
    let mut none = trie.rows(&[syllable(CE), syllable(CE)]);
    assert!(rt; none.next().is_none());
    let mut of_no_key = trie.rows(&[]);
    assert!(rt; of_no_key.next().is_none());
    Ok(())
}

#[test]
fn an_image_answers_as_the_rows_do(rt: HostRuntime) -> Result<(), Fail> {
    let (trie, map) = both(rt.alloc())?;
    let some = [syllable(CE), syllable(SHI), syllable(8)];
    assert!(rt; answer_alike(&trie, &map, &[]));
    for a in some {
        assert!(rt; answer_alike(&trie, &map, &[a]));
        assert_eq!(rt; trie.has_single(a), map.has_single(a));
        for b in some {
            assert!(rt; answer_alike(&trie, &map, &[a, b]));
            for c in some {
                assert!(rt; answer_alike(&trie, &map, &[a, b, c]));
            }
        }
    }
    assert!(rt; !trie.has_single(syllable(8)));
    assert_eq!(rt; trie.count(&[syllable(CE), syllable(SHI), syllable(CE)]), 0);
    Ok(())
}

#[test]
fn known_bytes_are_read(rt: HostRuntime) -> Result<(), Fail> {
    let mut bytes = Vec::new(rt.alloc());
    bytes.extend_from_slice(&BYTES)?;
    let trie = trie_of(bytes)?;
    assert_eq!(rt;
        trie.orig_and_peak(&[syllable(CE), syllable(SHI)], "測試"),
        (9318, 9318)
    );
    assert_eq!(rt; trie.count(&[syllable(CE)]), 0);
    Ok(())
}

#[test]
fn dictionaries_of_the_same_rows_answer_alike(rt: HostRuntime) -> Result<(), Fail> {
    let (trie, _) = both(rt.alloc())?;
    let key = [syllable(CE)];
    assert_eq!(rt; alike::counts(&trie, &trie, &key), (2, 2));
    let count = trie.count(&key);
    assert!(rt; count == 2);
    let (row, same) = alike::rows(&trie, &trie, &key, 1);
    assert_eq!(rt; (row.phrase, row.freq, row.time), ("策", 200, 0));
    assert_eq!(rt; (same.phrase, same.freq, same.time), ("策", 200, 0));
    assert_eq!(rt; alike::singles(&trie, &trie, syllable(SHI)), (true, true));
    assert_eq!(rt;
        alike::frequencies(&trie, &trie, &key, "測"),
        ((100, 200), (100, 200))
    );
    Ok(())
}
