//! The best segmentation by a second reading of the rules, which tries every segmentation and keeps no table.

ghost use Rattle.std.specs.Prelude.{◌≤◌};

use chew_phrasing::{Choice, Piece};
use chew_plain::Hit;
use chew_syllable::NoMemory;
use std::alloc::Global;

/// What may stand in a run.
#[derive(Clone, Copy)]
pub(crate) struct Rules<'a> {
    pub(crate) rows: &'a [Hit],
    pub(crate) breaks: &'a [u8],
    pub(crate) choices: &'a [Choice],
}

/// The best segmentation of a run of so many cells, and whether another one has its score.
pub(crate) fn best_of_every(
    alloc: Global,
    count: u32,
    rules: Rules<'_>,
) -> Result<(Vec<Piece>, bool), NoMemory>
    requires { count ≤ 10 }
{
    let mut best = Vec::new(alloc);
    let mut ties = false;
    for cuts in 0..1u32 << count {
        if let Some(pieces) = pieces_between(alloc, count, cuts, rules)? {
            if best.is_empty() || is_better(&pieces, &best) {
                ties = has_equal_score(&pieces, &best);
                best = pieces;
            } else if has_equal_score(&pieces, &best) {
                ties = true;
            }
        }
    }
    Ok((best, ties))
}

/// The pieces of a run that is cut behind each cell whose bit is set, where all of them may stand and the last cell is
/// cut off.
fn pieces_between(
    alloc: Global,
    count: u32,
    cuts: u32,
    rules: Rules<'_>,
) -> Result<Option<Vec<Piece>>, NoMemory>
    requires { count ≤ 10 }
{
    let mut pieces = Vec::new(alloc);
    let mut start = 0;
    for cell in 0..count {
        if (cuts >> cell) & 1 == 1 {
            let Some(piece) = piece_between(start, cell as usize + 1, rules) else {
                return Ok(None);
            };
            pieces.push(piece)?;
            start = cell as usize + 1;
        }
    }
    if start < count as usize {
        return Ok(None);
    }
    Ok(Some(pieces))
}

/// The piece from one place to another: a choice's own, or that of the first row that may stand there.
fn piece_between(start: usize, end: usize, rules: Rules<'_>) -> Option<Piece> {
    for choice in rules.choices {
        if usize::from(choice.start) == start && end_of_choice(choice) == end {
            return Some(Piece {
                start: choice.start,
                phrase: choice.phrase.copy(),
                freq: choice.freq,
            });
        }
    }
    for place in rules.breaks {
        if start < usize::from(*place) && usize::from(*place) < end {
            return None;
        }
    }
    for row in rules.rows {
        if usize::from(row.start) == start
            && end_of_row(row) == end
            && keeps_all(row, rules.choices)
        {
            return Some(Piece {
                start: row.start,
                phrase: row.phrase.copy(),
                freq: row.freq,
            });
        }
    }
    None
}

/// Where a choice ends.
fn end_of_choice(choice: &Choice) -> usize {
    usize::from(choice.start) + choice.phrase.characters()
}

/// Where a row's interval ends.
fn end_of_row(row: &Hit) -> usize {
    usize::from(row.start) + usize::from(row.len)
}

/// Whether a row goes with every choice.
fn keeps_all(row: &Hit, choices: &[Choice]) -> bool {
    for choice in choices {
        let is_apart = end_of_choice(choice) <= usize::from(row.start)
            || end_of_row(row) <= usize::from(choice.start);
        if !is_apart && !shows(row, choice) {
            return false;
        }
    }
    true
}

/// Whether a row has a choice's characters at the choice's cells, all of them.
fn shows(row: &Hit, choice: &Choice) -> bool {
    for place in 0..choice.phrase.characters() {
        let cell = usize::from(choice.start) + place;
        let Some(in_row) = cell.checked_sub(usize::from(row.start)) else {
            return false;
        };
        if row.phrase.text().chars().nth(in_row) != choice.phrase.text().chars().nth(place) {
            return false;
        }
    }
    true
}

/// Whether pieces have a greater score than others, or as great a one and are longer at the first that differ.
fn is_better(pieces: &[Piece], other: &[Piece]) -> bool {
    if has_equal_score(pieces, other) {
        return is_longer(pieces, other);
    }
    gain(pieces).saturating_add(loss(other)) > gain(other).saturating_add(loss(pieces))
}

/// Whether two lists of pieces have one score.
fn has_equal_score(pieces: &[Piece], other: &[Piece]) -> bool {
    gain(pieces).saturating_add(loss(other)) == gain(other).saturating_add(loss(pieces))
}

/// Whether pieces are longer at the first that differ.
fn is_longer(pieces: &[Piece], other: &[Piece]) -> bool {
    for (piece, beside) in pieces.iter().zip(other) {
        if piece.phrase.characters() != beside.phrase.characters() {
            return piece.phrase.characters() > beside.phrase.characters();
        }
    }
    false
}

/// A thousand for each syllable, a thousand for each whole piece that six times the syllables give each piece, and the
/// frequencies, of which a single syllable's counts a 512th.
fn gain(pieces: &[Piece]) -> u64 {
    let mut syllables: u64 = 0;
    let mut frequencies: u64 = 0;
    for piece in pieces {
        let freq = u64::from(piece.freq);
        let is_single = piece.phrase.characters() == 1;
        syllables = syllables.saturating_add(piece.phrase.characters() as u64);
        frequencies = frequencies.saturating_add(if is_single { freq / 512 } else { freq });
    }
    let share = syllables
        .saturating_mul(6)
        .checked_div(pieces.len() as u64)
        .unwrap_or(0);
    let thousands = syllables.saturating_add(share);
    thousands.saturating_mul(1000).saturating_add(frequencies)
}

/// A hundred for each syllable by which two pieces differ; each two are met twice.
fn loss(pieces: &[Piece]) -> u64 {
    let mut twice: u64 = 0;
    for piece in pieces {
        for other in pieces {
            let difference = piece
                .phrase
                .characters()
                .abs_diff(other.phrase.characters());
            twice = twice.saturating_add(difference as u64);
        }
    }
    twice.saturating_mul(50)
}
