//! What a second reading of the rules is made of: it is as plain as can be, and shares nothing with the editor.

use chew_syllable::{NoMemory, Phrase, Syllable};
use std::alloc::Global;

/// A cell of the buffer.
#[derive(Clone, Copy)]
pub(crate) enum Cell {
    Sound(Syllable),
    Symbol(u8),
}

/// A phrase over some cells, from a place on.
#[derive(Drop)]
pub(crate) struct Part {
    pub(crate) start: usize,
    pub(crate) phrase: Phrase,
    pub(crate) freq: u32,
}

impl Part {
    pub(crate) fn len(&self) -> usize {
        self.phrase.characters()
    }

    /// The place behind its last cell.
    pub(crate) fn end(&self) -> usize {
        self.start.saturating_add(self.len())
    }

    pub(crate) fn copy(&self) -> Part {
        self.at(self.start)
    }

    /// The same from another place on.
    pub(crate) fn at(&self, start: usize) -> Part {
        Part {
            start,
            phrase: self.phrase.copy(),
            freq: self.freq,
        }
    }

    /// Whether it has a cell of these.
    pub(crate) fn meets(&self, start: usize, end: usize) -> bool {
        self.start < end && start < self.end()
    }

    /// Whether all its cells are among these.
    pub(crate) fn is_within(&self, start: usize, end: usize) -> bool {
        start <= self.start && self.end() <= end
    }

    /// The character over a place of its own.
    pub(crate) fn character(&self, place: usize) -> char {
        let at = place.saturating_sub(self.start);
        self.phrase.text().chars().nth(at).unwrap_or('?')
    }

    /// Whether it has the characters of another, which is within it.
    pub(crate) fn agrees(&self, other: &Part) -> bool {
        for place in other.start..other.end() {
            if self.character(place) != other.character(place) {
                return false;
            }
        }
        true
    }
}

/// The parts once more.
pub(crate) fn copies(alloc: Global, parts: &[Part]) -> Result<Vec<Part>, NoMemory> {
    let mut list = Vec::new(alloc);
    for part in parts {
        list.push(part.copy())?;
    }
    Ok(list)
}

/// Some syllables of the buffer that follow one another.
#[derive(Drop)]
pub(crate) struct Stretch {
    pub(crate) start: usize,
    pub(crate) codes: Vec<Syllable>,
}

/// The stretches of syllables between symbols, from left to right.
pub(crate) fn stretches(alloc: Global, cells: &[Cell]) -> Result<Vec<Stretch>, NoMemory> {
    let mut list = Vec::new(alloc);
    let mut before = Cell::Symbol(b' ');
    for (start, cell) in cells.iter().enumerate() {
        if is_sound(*cell) && !is_sound(before) {
            let codes = sounds_from(alloc, cells, start)?;
            list.push(Stretch { start, codes })?;
        }
        before = *cell;
    }
    Ok(list)
}

/// Whether the cell is a syllable.
pub(crate) fn is_sound(cell: Cell) -> bool {
    match cell {
        Cell::Sound(_) => true,
        Cell::Symbol(_) => false,
    }
}

/// The syllables from a place on, up to the first symbol.
fn sounds_from(alloc: Global, cells: &[Cell], start: usize) -> Result<Vec<Syllable>, NoMemory> {
    let mut codes = Vec::new(alloc);
    for cell in cells.iter().skip(start) {
        match cell {
            Cell::Sound(syllable) => codes.push(*syllable)?,
            Cell::Symbol(_) => return Ok(codes),
        }
    }
    Ok(codes)
}
