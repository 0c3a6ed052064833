//! What a system answers by its five rows, and what a look finds of them.

use crate::calls::look;
use crate::five_rows::{CE, SHI, are_apart, five, syllable};
use chew_plain::{Hit, Lexicon, Plain, RowMap};
use chew_syllable::{NoMemory, Syllable};

/// What a hit tells.
fn parts(hit: &Hit) -> (u8, u8, &str, u32, bool) {
    (hit.start, hit.len, hit.phrase.text(), hit.freq, hit.hidden)
}

#[test]
fn a_system_answers_by_keys(rt: HostRuntime) -> Result<(), NoMemory> {
    let rows = five(rt.alloc())?;
    assert_eq!(rt; rows.len(), 5);
    assert!(rt; are_apart(&rows));
    let map = RowMap::of(rows)?;
    let ce = syllable(CE);
    let shi = syllable(SHI);
    assert_eq!(rt; map.count(&[ce]), 2);
    let first = map.row(&[ce], 0);
    assert_eq!(rt; (first.phrase, first.freq, first.time), ("測", 100, 0));
    let second = map.row(&[ce], 1);
    assert_eq!(rt; (second.phrase, second.freq, second.time), ("策", 200, 0));
    assert_eq!(rt; map.count(&[ce, shi]), 1);
    assert_eq!(rt; map.count(&[shi, ce]), 0);
    assert!(rt; map.has_single(shi));
    assert!(rt; !map.has_single(Syllable::default()));
    assert_eq!(rt; map.orig_and_peak(&[ce], "測"), (100, 200));
    assert_eq!(rt; map.orig_and_peak(&[ce], "試"), (0, 200));
    assert_eq!(rt; map.orig_and_peak(&[shi, ce], "試"), (0, 0));
    Ok(())
}

#[test]
fn rows_of_a_key_stand_together(rt: HostRuntime) -> Result<(), NoMemory> {
    let rows = five(rt.alloc())?;
    assert_eq!(rt; rows.len(), 5);
    assert!(rt; are_apart(&rows));
    let map = RowMap::of(rows)?;
    let places = map.places(&[syllable(CE)]);
    assert_eq!(rt; (places.start, places.end), (2, 4));
    assert_eq!(rt; map.places(&[syllable(CE), syllable(SHI)]).end, 5);
    Ok(())
}

#[test]
fn a_look_finds_all_intervals(rt: HostRuntime) -> Result<(), NoMemory> {
    let rows = five(rt.alloc())?;
    assert_eq!(rt; rows.len(), 5);
    assert!(rt; are_apart(&rows));
    let mut plain = Plain::of(rows, 7, 100)?;
    assert_eq!(rt; (plain.life(), plain.pairs()), (7, 5));
    let hits = look(&rt, &mut plain, &[syllable(CE), syllable(SHI)]);
    let found = hits.list();
    assert_eq!(rt; found.len(), 5);
    assert_eq!(rt; parts(&found[0]), (0, 1, "策", 200, false));
    assert_eq!(rt; parts(&found[1]), (0, 1, "測", 100, false));
    assert_eq!(rt; parts(&found[2]), (0, 2, "測試", 9318, false));
    assert_eq!(rt; parts(&found[3]), (1, 1, "是", 9000, false));
    assert_eq!(rt; parts(&found[4]), (1, 1, "試", 300, false));
    assert_eq!(rt; (plain.life(), plain.pairs()), (7, 5));
    Ok(())
}
