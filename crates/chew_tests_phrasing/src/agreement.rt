//! The table's answers are those of the reading that tries every segmentation, on runs made by a fixed rule.

ghost use Rattle.std.specs.Prelude.{◌≤◌};

use crate::draw::Draw;
use crate::every::{Rules, best_of_every};
use crate::hits::{hidden, shown};
use crate::inputs::{drawn_breaks, drawn_choices, drawn_freq, drawn_hit, drawn_rows, drawn_text};
use crate::phrasable::can_segment;
use chew_phrasing::{Piece, best, best_of_run, combine};
use chew_plain::{Hit, RowMap};
use chew_samples::{CE, SHI, are_apart, row, syllable};
use chew_syllable::{KeyRow, NoMemory, Run, Syllable};
use std::alloc::Global;
use std::test::Fail;

/// Whether two lists of pieces tell the same.
fn are_alike(pieces: &[Piece], others: &[Piece]) -> bool {
    if pieces.len() != others.len() {
        return false;
    }
    for (piece, other) in pieces.iter().zip(others) {
        if shown(piece) != shown(other) {
            return false;
        }
    }
    true
}

#[test]
fn the_best_of_made_rows(rt: HostRuntime) -> Result<(), Fail> {
    let mut ties = 0u32;
    for start in 0..400u32 {
        let mut draw = Draw::from(start);
        let count = 1 + draw.below(10) as u8;
        let rows = drawn_rows(rt.alloc(), &mut draw, count)?;
        let breaks = drawn_breaks(rt.alloc(), &mut draw, count)?;
        let choices = drawn_choices(rt.alloc(), &mut draw, count)?;
        let Some(run) = Run::of(&[syllable(SHI); 10][..usize::from(count)]) else {
            return Err(Fail::new("no run"));
        };
        assert!(rt;
            can_segment(&rows, &choices, run.list().len()),
            "input {start}"
        );
        let pieces = best(rt.alloc(), &run, &rows, &breaks, &choices)?;
        let rules = Rules {
            rows: &rows,
            breaks: &breaks,
            choices: &choices,
        };
        let (every, is_tie) = best_of_every(rt.alloc(), u32::from(count), rules)?;
        assert!(rt; are_alike(&pieces, &every), "input {start}");
        if is_tie {
            ties = ties.saturating_add(1);
        }
    }
    assert!(rt; ties > 0);
    Ok(())
}

/// The syllables of a key or a run of so many, one of two each by the bits of a number.
fn syllables_of(alloc: Global, bits: u32, count: u8) -> Result<Vec<Syllable>, NoMemory>
    requires { count ≤ 10 }
{
    let mut syllables = Vec::new(alloc);
    for place in 0..count {
        let code = if (bits >> place) & 1 == 1 { CE } else { SHI };
        syllables.push(syllable(code))?;
    }
    Ok(syllables)
}

/// Adds the rows of a key: one to three of one syllable, and none to two of more. No two begin with one character.
fn push_key(
    alloc: Global,
    draw: &mut Draw,
    rows: &mut Vec<KeyRow>,
    bits: u32,
    count: u8,
) -> Result<(), NoMemory>
    requires { count ≤ 10 }
{
    let key = syllables_of(alloc, bits, count)?;
    let least = if count == 1 { 1 } else { 0 };
    for first in 0..least + draw.below(3) {
        let text = drawn_text(alloc, draw, first, count)?;
        let freq = drawn_freq(draw);
        if let Some(row) = row(&key, text.as_str(), freq) {
            rows.push(row)?;
        }
    }
    Ok(())
}

/// Rows of a system for the keys of one to three of two syllables.
fn drawn_system(alloc: Global, draw: &mut Draw) -> Result<Vec<KeyRow>, NoMemory> {
    let mut rows = Vec::new(alloc);
    for count in 1..4u8 {
        for bits in 0..1u32 << count {
            push_key(alloc, draw, &mut rows, bits, count)?;
        }
    }
    Ok(rows)
}

/// The hits of a user for a run of so many cells: for a third of the intervals one, of which a third is hidden.
fn drawn_user(alloc: Global, draw: &mut Draw, count: u8) -> Result<Vec<Hit>, NoMemory>
    requires { count ≤ 10 }
{
    let mut hits = Vec::new(alloc);
    for start in 0..count {
        for len in 1..count - start + 1 {
            if draw.is_one_of(3) {
                let first = draw.below(3);
                let found = drawn_hit(alloc, draw, first, start, len)?;
                let is_hidden = draw.is_one_of(3);
                let found = if is_hidden { hidden(found) } else { found };
                if let Some(hit) = found {
                    hits.push(hit)?;
                }
            }
        }
    }
    Ok(hits)
}

#[test]
fn the_best_of_made_systems_and_users(rt: HostRuntime) -> Result<(), Fail> {
    for start in 0..200u32 {
        let mut draw = Draw::from(start);
        let rows = drawn_system(rt.alloc(), &mut draw)?;
        assert!(rt; are_apart(&rows), "input {start}");
        assert!(rt; rows.len() < 100, "input {start}");
        let system = RowMap::of(rows)?;
        let count = 1 + draw.below(8) as u8;
        let bits = draw.below(256);
        let syllables = syllables_of(rt.alloc(), bits, count)?;
        let Some(run) = Run::of(&syllables) else {
            return Err(Fail::new("no run"));
        };
        let user = drawn_user(rt.alloc(), &mut draw, count)?;
        let breaks = drawn_breaks(rt.alloc(), &mut draw, count)?;
        let choices = drawn_choices(rt.alloc(), &mut draw, count)?;
        let rows = combine(rt.alloc(), &system, &run, &user)?;
        assert!(rt; !run.list().is_empty(), "input {start}");
        assert!(rt;
            can_segment(rows.list(), &choices, run.list().len()),
            "input {start}"
        );
        let pieces = best(rt.alloc(), &run, rows.list(), &breaks, &choices)?;
        let direct = best_of_run(rt.alloc(), &system, &run, &user, &breaks, &choices)?;
        assert!(rt; are_alike(&pieces, &direct), "input {start}");
        let rules = Rules {
            rows: rows.list(),
            breaks: &breaks,
            choices: &choices,
        };
        let (every, _) = best_of_every(rt.alloc(), u32::from(count), rules)?;
        assert!(rt; are_alike(&direct, &every), "input {start}");
    }
    Ok(())
}
