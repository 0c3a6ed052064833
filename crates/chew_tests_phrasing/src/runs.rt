//! Known segmentations straight from a system.

use crate::hits::shown;
use crate::phrasable::can_segment;
use chew_phrasing::{best_of_run, combine, score};
use chew_plain::RowMap;
use chew_samples::{CE, SHI, are_apart, five, row, syllable};
use chew_syllable::{KeyRow, NoMemory, Run};
use std::alloc::Global;
use std::test::Fail;

#[test]
fn a_phrase_and_a_single(rt: HostRuntime) -> Result<(), Fail> {
    let system = RowMap::of(five(rt.alloc())?)?;
    let Some(run) = Run::of(&[syllable(CE), syllable(SHI), syllable(CE)]) else {
        return Err(Fail::new("no run"));
    };
    let rows = combine(rt.alloc(), &system, &run, &[])?;
    assert!(rt; can_segment(rows.list(), &[], run.list().len()));
    let pieces = best_of_run(rt.alloc(), &system, &run, &[], &[], &[])?;
    assert_eq!(rt; pieces.len(), 2);
    assert_eq!(rt; shown(&pieces[0]), (0, "測試", 9318));
    assert_eq!(rt; shown(&pieces[1]), (2, "策", 200));
    let pieces = best_of_run(rt.alloc(), &system, &run, &[], &[1], &[])?;
    assert_eq!(rt; pieces.len(), 3);
    assert_eq!(rt; shown(&pieces[0]), (0, "策", 200));
    assert_eq!(rt; shown(&pieces[1]), (1, "是", 9000));
    assert_eq!(rt; shown(&pieces[2]), (2, "策", 200));
    Ok(())
}

/// The rows of 是 once to eleven times, each of frequency 0.
pub(crate) fn repeated(alloc: Global) -> Result<Vec<KeyRow>, NoMemory> {
    let mut rows = Vec::new(alloc);
    let mut key = Vec::new(alloc);
    let mut text = String::new(alloc);
    for _ in 0..11 {
        key.push(syllable(SHI))?;
        text.push_str("是")?;
        if let Some(row) = row(&key, text.as_str(), 0) {
            rows.push(row)?;
        }
    }
    Ok(rows)
}

#[test]
fn thirty_nine_syllables_with_rows_of_every_length(rt: HostRuntime) -> Result<(), Fail> {
    let rows = repeated(rt.alloc())?;
    assert_eq!(rt; rows.len(), 11);
    assert!(rt; are_apart(&rows));
    let system = RowMap::of(rows)?;
    let Some(run) = Run::of(&[syllable(SHI); 39]) else {
        return Err(Fail::new("no run"));
    };
    let rows = combine(rt.alloc(), &system, &run, &[])?;
    assert!(rt; can_segment(rows.list(), &[], run.list().len()));
    let pieces = best_of_run(rt.alloc(), &system, &run, &[], &[], &[])?;
    assert_eq!(rt; pieces.len(), 4);
    assert_eq!(rt; pieces[0].phrase.characters(), 10);
    assert_eq!(rt; pieces[1].phrase.characters(), 10);
    assert_eq!(rt; pieces[2].phrase.characters(), 10);
    assert_eq!(rt; pieces[3].phrase.characters(), 9);
    assert_eq!(rt; score(&[10, 10, 10, 9], &[0, 0, 0, 0]), 96_700);
    Ok(())
}
