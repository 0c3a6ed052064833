//! The most syllables of a run, 39, of which each is the same and has thousands of rows.

use crate::hits::parts;
use chew_phrasing::{combine, combine_at};
use chew_plain::{Hit, RowMap};
use chew_samples::{SHI, are_apart, row, syllable};
use chew_syllable::{KeyRow, Run};
use std::alloc::Global;
use std::process::Abort;
use std::test::Fail;

/// How many rows the syllable has.
const ROWS: u32 = 5000;

/// The text of the row of a number: the character so far behind 一.
fn text_of(alloc: Global, number: u32) -> Result<String, Fail> {
    let mut text = String::new(alloc);
    text.push(char::from_u32(0x4E00u32.saturating_add(number)).unwrap_or('測'))?;
    Ok(text)
}

/// Rows of the syllable, of which each has its number as its frequency.
fn rows(alloc: Global) -> Result<Vec<KeyRow>, Fail> {
    let mut rows = Vec::new(alloc);
    for number in 0..ROWS {
        let text = text_of(alloc, number)?;
        if let Some(row) = row(&[syllable(SHI)], text.as_str(), number) {
            rows.push(row)?;
        }
    }
    Ok(rows)
}

/// The system of these rows.
fn system(alloc: Global) -> Result<RowMap, Fail> {
    let rows = rows(alloc)?;
    if rows.len() != 5000 {
        return Err(Fail::new("not all rows"));
    }
    if !are_apart(&rows) {
        return Err(Fail::new("a pair twice"));
    }
    Ok(RowMap::of(rows)?)
}

/// 39 times the syllable.
fn run() -> Result<Run, Fail> {
    match Run::of(&[syllable(SHI); 39]) {
        Some(run) => Ok(run),
        None => Err(Fail::new("no run")),
    }
}

/// The hits are all rows at each place from this one on, the greatest frequency first.
fn are_all_from(rt: &impl Abort, alloc: Global, hits: &[Hit], place: u8) -> Result<(), Fail> {
    let mut start = place;
    let mut number = ROWS;
    for hit in hits {
        if number == 0 {
            start = start.saturating_add(1);
            number = ROWS;
        }
        number = number.saturating_sub(1);
        let text = text_of(alloc, number)?;
        assert_eq!(rt; parts(hit), (start, 1, text.as_str(), number));
    }
    Ok(())
}

#[test]
fn thousands_of_rows_are_combined_at_each_of_thirty_nine_places(
    rt: HostRuntime,
) -> Result<(), Fail> {
    let system = system(rt.alloc())?;
    let hits = combine(rt.alloc(), &system, &run()?, &[])?;
    assert_eq!(rt; hits.list().len(), 195_000);
    are_all_from(&rt, rt.alloc(), hits.list(), 0)
}

#[test]
fn thousands_of_rows_are_combined_at_the_last_place(rt: HostRuntime) -> Result<(), Fail> {
    let system = system(rt.alloc())?;
    let run = run()?;
    assert_eq!(rt; run.list().len(), 39);
    let hits = combine_at(rt.alloc(), &system, &run, &[], 38)?;
    assert_eq!(rt; hits.list().len(), 5000);
    are_all_from(&rt, rt.alloc(), hits.list(), 38)
}
