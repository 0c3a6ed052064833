//! Rows, breaks and choices of runs, made by a fixed rule.

ghost use Rattle.std.specs.Prelude.{◌+◌, ◌<◌, ◌≤◌};

use crate::draw::Draw;
use crate::hits::hit;
use chew_phrasing::Choice;
use chew_plain::Hit;
use chew_syllable::{NoMemory, Phrase};
use std::alloc::Global;
use std::cmp::min;

/// Frequencies of which many sums are alike, so that segmentations tie: some below a single's 512, and some as great as
/// what a score counts for pieces.
const FREQS: [u32; 8] = [0, 0, 50, 100, 512, 1000, 2000, 6000];

/// The characters that phrases are made of: few, so that phrases often have some in common.
const CHARACTERS: [&str; 3] = ["是", "試", "測"];

/// One of the frequencies.
pub(crate) fn drawn_freq(draw: &mut Draw) -> u32
    ensures { result ≤ 99_999_999 }
{
    match FREQS.get(draw.below(8) as usize) {
        Some(freq) if *freq <= 99_999_999 => *freq,
        _ => 0,
    }
}

/// A text of so many characters, of which the first is the one of this number.
pub(crate) fn drawn_text(
    alloc: Global,
    draw: &mut Draw,
    first: u32,
    count: u8,
) -> Result<String, NoMemory> {
    let mut text = String::new(alloc);
    let mut number = first;
    for _ in 0..count {
        text.push_str(CHARACTERS[(number % 3) as usize])?;
        number = draw.below(3);
    }
    Ok(text)
}

/// A length of 1 to 3 that stays within so many cells from a place on.
fn drawn_length(draw: &mut Draw, room: u8) -> u8
    requires { 0 < room }
    ensures some { 1 ≤ result }
    ensures within { result ≤ room }
    ensures few { result ≤ 3 }
{
    1 + draw.below(u32::from(min(room, 3))) as u8
}

/// A hit of an interval, whose phrase begins with the character of this number.
pub(crate) fn drawn_hit(
    alloc: Global,
    draw: &mut Draw,
    first: u32,
    start: u8,
    len: u8,
) -> Result<Option<Hit>, NoMemory>
    requires inside { start + len ≤ 39 }
    requires some { 1 ≤ len }
    requires few { len ≤ 11 }
{
    let text = drawn_text(alloc, draw, first, len)?;
    let freq = drawn_freq(draw);
    Ok(hit(start, len, text.as_str(), freq))
}

/// Rows of a run of so many cells: one to three for each cell, and none to two for each longer interval up to a length
/// that is drawn for all.
pub(crate) fn drawn_rows(alloc: Global, draw: &mut Draw, count: u8) -> Result<Vec<Hit>, NoMemory>
    requires { count ≤ 10 }
{
    let mut rows = Vec::new(alloc);
    let longest = 1 + draw.below(10) as u8;
    for start in 0..count {
        for len in 1..min(longest, count - start) + 1 {
            push_rows(alloc, draw, &mut rows, start, len)?;
        }
    }
    Ok(rows)
}

/// Adds the rows of an interval.
fn push_rows(
    alloc: Global,
    draw: &mut Draw,
    rows: &mut Vec<Hit>,
    start: u8,
    len: u8,
) -> Result<(), NoMemory>
    requires inside { start + len ≤ 39 }
    requires some { 1 ≤ len }
    requires few { len ≤ 11 }
{
    let least = if len == 1 { 1 } else { 0 };
    for first in 0..least + draw.below(3) {
        if let Some(row) = drawn_hit(alloc, draw, first, start, len)? {
            rows.push(row)?;
        }
    }
    Ok(())
}

/// Breaks between cells of a run of so many, a fourth of the places.
pub(crate) fn drawn_breaks(alloc: Global, draw: &mut Draw, count: u8) -> Result<Vec<u8>, NoMemory> {
    let mut breaks = Vec::new(alloc);
    for place in 1..count {
        if draw.is_one_of(4) {
            breaks.push(place)?;
        }
    }
    Ok(breaks)
}

/// Choices of a run of so many cells, apart from each other: each cell begins one a fifth of the time, where it is free.
pub(crate) fn drawn_choices(
    alloc: Global,
    draw: &mut Draw,
    count: u8,
) -> Result<Vec<Choice>, NoMemory> {
    let mut choices = Vec::new(alloc);
    let mut free = 0;
    for start in 0..count {
        if start >= free && draw.is_one_of(5) {
            let len = drawn_length(draw, count - start);
            if let Some(choice) = drawn_choice(alloc, draw, start, len)? {
                choices.push(choice)?;
                free = start + len;
            }
        }
    }
    Ok(choices)
}

/// A choice of an interval.
fn drawn_choice(
    alloc: Global,
    draw: &mut Draw,
    start: u8,
    len: u8,
) -> Result<Option<Choice>, NoMemory> {
    let first = draw.below(3);
    let text = drawn_text(alloc, draw, first, len)?;
    let freq = drawn_freq(draw);
    match Phrase::read(text.as_bytes()) {
        Ok(phrase) => Ok(Some(Choice {
            start,
            phrase,
            freq,
        })),
        Err(_) => Ok(None),
    }
}
