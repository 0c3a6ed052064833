//! The most of a run: 39 syllables, of which each interval has a row in the system and three of the user's.

ghost use Rattle.std.specs.Prelude.{◌≡◌, ◌+◌, ◌≤◌, [], IfOk, IsTrue, length};
ghost use Rattle.chew_spec_phrasing.specs.CanSegment.{CanSegment};
ghost use Rattle.chew_spec_phrasing.specs.CombinedRows.{combined_hits};

use crate::hits::{hit, shown};
use crate::phrasable::can_segment;
use crate::runs::repeated;
use chew_phrasing::{Piece, best_of_run, combine, combine_at};
use chew_plain::{Hit, RowMap};
use chew_samples::{SHI, are_apart, syllable};
use chew_syllable::{NoMemory, Run};
use std::alloc::Global;
use std::cmp::min;
use std::process::Abort;
use std::test::Fail;

/// The frequency of the first of the user's phrases of so many syllables; those of the others are 1 and 2 greater.
fn freq_of(len: u8) -> u32
    ensures { result ≤ 90_000_000 }
{
    match len {
        11 => 90_000_000,
        6 => 10_000_000,
        _ => 1000,
    }
}

/// This character, and 是 after it, so many together.
fn text_of(alloc: Global, first: &str, len: u8) -> Result<String, NoMemory> {
    let mut text = String::new(alloc);
    text.push_str(first)?;
    for _ in 1..len {
        text.push_str("是")?;
    }
    Ok(text)
}

/// Adds the user's hit of an interval that begins with this character.
fn push_hit(
    alloc: Global,
    hits: &mut Vec<Hit>,
    start: u8,
    len: u8,
    first: &str,
    freq: u32,
) -> Result<(), NoMemory>
    requires inside { start + len ≤ 39 }
    requires some { 1 ≤ len }
    requires few { len ≤ 11 }
    requires freq { freq ≤ 99_999_999 }
{
    let text = text_of(alloc, first, len)?;
    if let Some(hit) = hit(start, len, text.as_str(), freq) {
        hits.push(hit)?;
    }
    Ok(())
}

/// Adds the user's three hits of an interval.
fn push_hits(alloc: Global, hits: &mut Vec<Hit>, start: u8, len: u8) -> Result<(), NoMemory>
    requires inside { start + len ≤ 39 }
    requires some { 1 ≤ len }
    requires few { len ≤ 11 }
{
    let freq = freq_of(len);
    push_hit(alloc, hits, start, len, "試", freq)?;
    push_hit(alloc, hits, start, len, "測", freq + 1)?;
    push_hit(alloc, hits, start, len, "策", freq + 2)
}

/// The user's hits of all intervals of 39 syllables.
fn all_hits(alloc: Global) -> Result<Vec<Hit>, NoMemory> {
    let mut hits = Vec::new(alloc);
    for start in 0..39u8 {
        for len in 1..min(11, 39 - start) + 1 {
            push_hits(alloc, &mut hits, start, len)?;
        }
    }
    Ok(hits)
}

/// The system of 是 once to eleven times.
fn system(alloc: Global) -> Result<RowMap, Fail> {
    let rows = repeated(alloc)?;
    if rows.len() != 11 {
        return Err(Fail::new("no eleven rows"));
    }
    if !are_apart(&rows) {
        return Err(Fail::new("a pair twice"));
    }
    Ok(RowMap::of(rows)?)
}

/// Whether there are four combined rows of each of the 374 intervals, and so a segmentation.
fn can_be_parted(alloc: Global, system: &RowMap, run: &Run, user: &[Hit]) -> Result<bool, NoMemory>
    ensures { IfOk result (λ can. IsTrue can → CanSegment (combined_hits system.now run.now user.now) [] (length run.now)) }
{
    let rows = combine(alloc, system, run, user)?;
    if rows.list().len() != 1496 {
        return Ok(false);
    }
    Ok(can_segment(rows.list(), &[], run.list().len()))
}

/// The best segmentation of the run.
fn best_pieces(
    alloc: Global,
    system: &RowMap,
    run: &Run,
    user: &[Hit],
) -> Result<Vec<Piece>, Fail> {
    if run.list().is_empty() {
        return Err(Fail::new("no syllable"));
    }
    if !can_be_parted(alloc, system, run, user)? {
        return Err(Fail::new("not all rows"));
    }
    Ok(best_of_run(alloc, system, run, user, &[], &[])?)
}

/// Three pieces of 11 syllables and one of 6. Whatever has not all four of these great frequencies has ten million less by it,
/// and all else counts for less than a million. Of the orders that they may stand in, that with the longer first is best.
fn are_best(rt: &impl Abort, pieces: &[Piece]) {
    assert_eq!(rt; pieces.len(), 4);
    assert_eq!(rt; shown(&pieces[0]), (0, "策是是是是是是是是是是", 90_000_002));
    assert_eq!(rt; shown(&pieces[1]), (11, "策是是是是是是是是是是", 90_000_002));
    assert_eq!(rt; shown(&pieces[2]), (22, "策是是是是是是是是是是", 90_000_002));
    assert_eq!(rt; shown(&pieces[3]), (33, "策是是是是是", 10_000_002));
}

/// The best of 39 syllables by the system and these hits.
fn check_best(rt: &impl Abort, alloc: Global, system: &RowMap, user: &[Hit]) -> Result<(), Fail> {
    let Some(run) = Run::of(&[syllable(SHI); 39]) else {
        return Err(Fail::new("no run"));
    };
    let pieces = best_pieces(alloc, system, &run, user)?;
    are_best(rt, &pieces);
    Ok(())
}

/// Whether there are four combined rows of each interval that begins at a place.
fn has_all_at(
    alloc: Global,
    system: &RowMap,
    run: &Run,
    user: &[Hit],
    place: u8,
) -> Result<bool, Fail> {
    if usize::from(place) >= run.list().len() {
        return Err(Fail::new("no such place"));
    }
    let rows = combine_at(alloc, system, run, user, place)?;
    let intervals = min(11, 39u8.saturating_sub(place));
    Ok(rows.list().len() == usize::from(intervals).saturating_mul(4))
}

/// The combined rows of 39 syllables by the system and these hits, place by place.
fn check_places(rt: &impl Abort, alloc: Global, system: &RowMap, user: &[Hit]) -> Result<(), Fail> {
    let Some(run) = Run::of(&[syllable(SHI); 39]) else {
        return Err(Fail::new("no run"));
    };
    for place in 0..39u8 {
        assert!(rt; has_all_at(alloc, system, &run, user, place)?);
    }
    Ok(())
}

#[test]
fn each_place_of_thirty_nine_syllables_has_its_rows(rt: HostRuntime) -> Result<(), Fail> {
    let system = system(rt.alloc())?;
    let user = all_hits(rt.alloc())?;
    check_places(&rt, rt.alloc(), &system, &user)
}

#[test]
fn thirty_nine_syllables_with_four_rows_of_each_interval(rt: HostRuntime) -> Result<(), Fail> {
    let system = system(rt.alloc())?;
    let user = all_hits(rt.alloc())?;
    check_best(&rt, rt.alloc(), &system, &user)
}
