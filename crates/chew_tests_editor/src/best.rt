//! The best of all segmentations, found by making them all.

use crate::part::{Part, copies};
use chew_plain::Hit;
use chew_syllable::{KeyRow, NoMemory, Syllable};
use std::alloc::Global;

/// A run with all that decides how it is shown; places count from its first syllable.
#[derive(Drop)]
pub(crate) struct Phrasing {
    pub(crate) codes: Vec<Syllable>,
    pub(crate) found: Vec<Hit>,
    pub(crate) breaks: Vec<usize>,
    pub(crate) choices: Vec<Part>,
}

impl Phrasing {
    /// The parts of the best segmentation.
    pub(crate) fn best(&self, alloc: Global, system: &[KeyRow]) -> Result<Vec<Part>, NoMemory> {
        let mut fronts = Vec::new(alloc);
        let mut nothing = Vec::new(alloc);
        nothing.push(Vec::new(alloc))?;
        fronts.push(nothing)?;
        for place in 0..self.codes.len() {
            let more = self.ending_at(alloc, system, &fronts, place + 1)?;
            fronts.push(more)?;
        }
        match fronts.last() {
            Some(all) => best_of(alloc, all),
            None => Ok(Vec::new(alloc)),
        }
    }

    /// All segmentations of the syllables before a place, of those of the syllables before each earlier one.
    fn ending_at(
        &self,
        alloc: Global,
        system: &[KeyRow],
        fronts: &[Vec<Vec<Part>>],
        end: usize,
    ) -> Result<Vec<Vec<Part>>, NoMemory> {
        let mut list = Vec::new(alloc);
        for (start, before) in fronts.iter().enumerate() {
            if let Some(part) = self.usable(alloc, system, start, end)? {
                for parts in before {
                    let mut longer = copies(alloc, parts)?;
                    longer.push(part.copy())?;
                    list.push(longer)?;
                }
            }
        }
        Ok(list)
    }

    /// The part of an interval, where it is usable.
    fn usable(
        &self,
        alloc: Global,
        system: &[KeyRow],
        start: usize,
        end: usize,
    ) -> Result<Option<Part>, NoMemory> {
        if self.is_broken(start, end) {
            return Ok(None);
        }
        for choice in &self.choices {
            if choice.start == start && choice.end() == end {
                return Ok(Some(choice.copy()));
            }
            if choice.meets(start, end) && !choice.is_within(start, end) {
                return Ok(None);
            }
        }
        for row in &self.combined(alloc, system, start, end)? {
            if self.suits(row) {
                return Ok(Some(row.copy()));
            }
        }
        Ok(None)
    }

    /// Whether a break is strictly inside.
    pub(crate) fn is_broken(&self, start: usize, end: usize) -> bool {
        for at in &self.breaks {
            if start < *at && *at < end {
                return true;
            }
        }
        false
    }

    /// Whether a row has the characters of each choice within it.
    fn suits(&self, row: &Part) -> bool {
        for choice in &self.choices {
            if choice.is_within(row.start, row.end()) && !row.agrees(choice) {
                return false;
            }
        }
        true
    }

    /// The user's visible rows of an interval and those of the system that the user has not, in the order in which they
    /// are shown.
    pub(crate) fn combined(
        &self,
        alloc: Global,
        system: &[KeyRow],
        start: usize,
        end: usize,
    ) -> Result<Vec<Part>, NoMemory> {
        let mut list = Vec::new(alloc);
        let Some(key) = self.codes.get(start..end) else {
            return Ok(list);
        };
        for hit in &self.found {
            if is_over(hit, start, end) && !hit.hidden {
                list = with(
                    alloc,
                    list,
                    Part {
                        start,
                        phrase: hit.phrase.copy(),
                        freq: hit.freq,
                    },
                )?;
            }
        }
        for row in system {
            if row.key.list() == key && !self.has(start, end, row.phrase.text()) {
                list = with(
                    alloc,
                    list,
                    Part {
                        start,
                        phrase: row.phrase.copy(),
                        freq: row.freq,
                    },
                )?;
            }
        }
        Ok(list)
    }

    /// Whether the user has a phrase over an interval, hidden or not.
    fn has(&self, start: usize, end: usize, text: &str) -> bool {
        for hit in &self.found {
            if is_over(hit, start, end) && hit.phrase.text() == text {
                return true;
            }
        }
        false
    }
}

/// Whether a hit is over an interval.
fn is_over(hit: &Hit, start: usize, end: usize) -> bool {
    let from = usize::from(hit.start);
    from == start && from.saturating_add(usize::from(hit.len)) == end
}

/// The list with a part more: greater frequencies come first, then lesser bytes.
fn with(alloc: Global, list: Vec<Part>, part: Part) -> Result<Vec<Part>, NoMemory> {
    let mut placed = Vec::new(alloc);
    for had in &list {
        if comes_before(had, &part) {
            placed.push(had.copy())?;
        }
    }
    placed.push(part.copy())?;
    for had in &list {
        if !comes_before(had, &part) {
            placed.push(had.copy())?;
        }
    }
    Ok(placed)
}

/// Whether one part is shown before another.
fn comes_before(one: &Part, other: &Part) -> bool {
    if one.freq != other.freq {
        return one.freq > other.freq;
    }
    one.phrase.text().as_bytes() < other.phrase.text().as_bytes()
}

/// The first of the best.
fn best_of(alloc: Global, all: &[Vec<Part>]) -> Result<Vec<Part>, NoMemory> {
    let mut best = Vec::new(alloc);
    for parts in all {
        if best.is_empty() || beats(parts, &best) {
            best = copies(alloc, parts)?;
        }
    }
    Ok(best)
}

/// Whether one segmentation has the greater score, or the same one and at the first difference the longer part.
fn beats(one: &[Part], other: &[Part]) -> bool {
    let mine = gain(one).saturating_add(loss(other));
    let theirs = gain(other).saturating_add(loss(one));
    if mine != theirs {
        return mine > theirs;
    }
    for (part, against) in one.iter().zip(other) {
        if part.len() != against.len() {
            return part.len() > against.len();
        }
    }
    false
}

/// What the score adds up: 1000 a syllable, 1000 times six syllables for a part, and the frequencies, of single
/// syllables a 512th part.
fn gain(parts: &[Part]) -> usize {
    let mut syllables: usize = 0;
    let mut frequencies: usize = 0;
    for part in parts {
        syllables = syllables.saturating_add(part.len());
        let frequency = part.freq as usize;
        frequencies = frequencies.saturating_add(if part.len() == 1 {
            frequency / 512
        } else {
            frequency
        });
    }
    let six = syllables
        .saturating_mul(6)
        .checked_div(parts.len())
        .unwrap_or(0);
    syllables
        .saturating_add(six)
        .saturating_mul(1000)
        .saturating_add(frequencies)
}

/// What it takes away: 100 times the differences of length of all pairs of parts.
fn loss(parts: &[Part]) -> usize {
    let mut differences: usize = 0;
    for (at, part) in parts.iter().enumerate() {
        for other in parts.iter().take(at) {
            let longer = part.len().max(other.len());
            let shorter = part.len().min(other.len());
            differences = differences.saturating_add(longer.saturating_sub(shorter));
        }
    }
    differences.saturating_mul(100)
}
