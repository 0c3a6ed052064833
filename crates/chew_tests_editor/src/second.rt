//! A second reading of what an editor keeps, of what its edits do, and of the line that shows it.

use crate::best::Phrasing;
use crate::book::Book;
use crate::opened::Opened;
use crate::part::{Cell, Part, Stretch, copies, is_sound, stretches};
use chew_layouts::Layout;
use chew_plain::{Hit, Reply};
use chew_syllable::{KeyRow, Syllable};
use std::alloc::Global;
use std::test::Fail;

/// What is set.
#[derive(Drop)]
pub(crate) struct Rules {
    pub(crate) buffer: usize,
    pub(crate) page: usize,
    pub(crate) selection: [u8; 10],
    pub(crate) escape_clears: bool,
    pub(crate) learn: bool,
}

/// An editor by the second reading.
#[derive(Drop)]
pub(crate) struct Second {
    pub(crate) rules: Rules,
    pub(crate) system: Vec<KeyRow>,
    pub(crate) book: Book,
    pub(crate) layout: Layout,
    pub(crate) cells: Vec<Cell>,
    pub(crate) cursor: usize,
    pub(crate) breaks: Vec<usize>,
    pub(crate) choices: Vec<Part>,
    /// The parts that are shown for all stretches, by their places.
    pub(crate) shown: Vec<Part>,
    pub(crate) opened: Option<Opened>,
    /// What the key commits.
    pub(crate) commit: String,
}

impl Second {
    /// Whether there is a syllable at a place.
    pub(crate) fn is_sound_at(&self, place: usize) -> bool {
        match self.cells.get(place) {
            Some(cell) => is_sound(*cell),
            None => false,
        }
    }

    /// A character for each cell.
    fn characters(&self, alloc: Global) -> Result<Vec<char>, Fail> {
        let mut list = Vec::new(alloc);
        for (place, cell) in self.cells.iter().enumerate() {
            match cell {
                Cell::Symbol(byte) => list.push(char::from(*byte))?,
                Cell::Sound(_) => list.push(self.character_at(place))?,
            }
        }
        Ok(list)
    }

    /// The character that is shown for a syllable.
    fn character_at(&self, place: usize) -> char {
        for part in &self.shown {
            if part.meets(place, place.saturating_add(1)) {
                return part.character(place);
            }
        }
        '?'
    }

    /// The text of the cells from one place to another.
    pub(crate) fn text(&self, alloc: Global, start: usize, end: usize) -> Result<String, Fail> {
        let mut text = String::new(alloc);
        for character in self.characters(alloc)?.iter().take(end).skip(start) {
            text.push(*character)?;
        }
        Ok(text)
    }

    /// The syllables of the cells from one place to another.
    pub(crate) fn key(
        &self,
        alloc: Global,
        start: usize,
        end: usize,
    ) -> Result<Vec<Syllable>, Fail> {
        let mut key = Vec::new(alloc);
        for cell in self.cells.iter().take(end).skip(start) {
            if let Cell::Sound(syllable) = cell {
                key.push(*syllable)?;
            }
        }
        Ok(key)
    }

    /// Learns what is shown of some cells, in parts of 11, and answers whether one found the dictionary full.
    pub(crate) fn learn(&mut self, alloc: Global, start: usize, end: usize) -> Result<bool, Fail> {
        let mut full = false;
        for part in 0..4usize {
            let from = start.saturating_add(part * 11);
            let to = end.min(from.saturating_add(11));
            if from < to {
                let key = self.key(alloc, from, to)?;
                let text = self.text(alloc, from, to)?;
                if let Reply::Full = self.book.learn(&self.system, &key, &text)? {
                    full = true;
                }
            }
        }
        Ok(full)
    }

    /// A cell at the cursor, which moves past it.
    pub(crate) fn insert(&mut self, alloc: Global, cell: Cell) -> Result<(), Fail> {
        let at = self.cursor;
        let mut cells = Vec::new(alloc);
        for had in self.cells.iter().take(at) {
            cells.push(*had)?;
        }
        cells.push(cell)?;
        for had in self.cells.iter().skip(at) {
            cells.push(*had)?;
        }
        let mut breaks = Vec::new(alloc);
        for had in &self.breaks {
            if *had < at {
                breaks.push(*had)?;
            }
            if *had > at {
                breaks.push(had.saturating_add(1))?;
            }
        }
        let mut choices = Vec::new(alloc);
        for had in &self.choices {
            if had.end() <= at {
                choices.push(had.copy())?;
            }
            if had.start >= at {
                choices.push(had.at(had.start.saturating_add(1)))?;
            }
        }
        self.cells = cells;
        self.breaks = breaks;
        self.choices = choices;
        self.cursor = at.saturating_add(1);
        Ok(())
    }

    /// Without the cell at a place.
    pub(crate) fn delete(&mut self, alloc: Global, at: usize) -> Result<(), Fail> {
        let behind = at.saturating_add(1);
        let mut cells = Vec::new(alloc);
        for (place, had) in self.cells.iter().enumerate() {
            if place != at {
                cells.push(*had)?;
            }
        }
        let mut breaks = Vec::new(alloc);
        for had in &self.breaks {
            if *had < at {
                breaks.push(*had)?;
            }
            if *had > behind {
                breaks.push(had.saturating_sub(1))?;
            }
        }
        let mut choices = Vec::new(alloc);
        for had in &self.choices {
            if had.end() <= at {
                choices.push(had.copy())?;
            }
            if had.start >= behind {
                choices.push(had.at(had.start.saturating_sub(1)))?;
            }
        }
        self.cells = cells;
        self.breaks = breaks;
        self.choices = choices;
        Ok(())
    }

    /// Without the first cells, their choices, and the breaks up to their end.
    pub(crate) fn release(&mut self, alloc: Global, count: usize) -> Result<(), Fail> {
        let mut cells = Vec::new(alloc);
        for had in self.cells.iter().skip(count) {
            cells.push(*had)?;
        }
        let mut breaks = Vec::new(alloc);
        for had in &self.breaks {
            if *had > count {
                breaks.push(had.saturating_sub(count))?;
            }
        }
        let mut choices = Vec::new(alloc);
        for had in &self.choices {
            if had.start >= count {
                choices.push(had.at(had.start.saturating_sub(count)))?;
            }
        }
        self.cells = cells;
        self.breaks = breaks;
        self.choices = choices;
        self.cursor = self.cursor.saturating_sub(count);
        Ok(())
    }

    /// Without any cell.
    pub(crate) fn empty(&mut self, alloc: Global) {
        self.cells = Vec::new(alloc);
        self.breaks = Vec::new(alloc);
        self.choices = Vec::new(alloc);
        self.shown = Vec::new(alloc);
        self.cursor = 0;
    }

    /// A choice, before which those that it meets go.
    pub(crate) fn choose(&mut self, alloc: Global, choice: Part) -> Result<(), Fail> {
        let mut choices = Vec::new(alloc);
        for had in &self.choices {
            if !had.meets(choice.start, choice.end()) {
                choices.push(had.copy())?;
            }
        }
        choices.push(choice)?;
        self.choices = choices;
        Ok(())
    }

    /// A break at the cursor, or none where one is there; a choice with the new one inside goes.
    pub(crate) fn toggle(&mut self, alloc: Global) -> Result<(), Fail> {
        let at = self.cursor;
        let mut breaks = Vec::new(alloc);
        let mut sets = true;
        for had in &self.breaks {
            if *had == at {
                sets = false;
            } else {
                breaks.push(*had)?;
            }
        }
        if sets {
            breaks.push(at)?;
            let mut choices = Vec::new(alloc);
            for had in &self.choices {
                if !(had.start < at && at < had.end()) {
                    choices.push(had.copy())?;
                }
            }
            self.choices = choices;
        }
        self.breaks = breaks;
        Ok(())
    }

    /// What decides how a stretch is shown, with what a look-up finds for it.
    pub(crate) fn phrasing(&mut self, alloc: Global, stretch: &Stretch) -> Result<Phrasing, Fail> {
        let found: Vec<Hit> = self.book.look(&stretch.codes)?;
        let end = stretch.start.saturating_add(stretch.codes.len());
        let mut breaks = Vec::new(alloc);
        for had in &self.breaks {
            if stretch.start < *had && *had < end {
                breaks.push(had.saturating_sub(stretch.start))?;
            }
        }
        let mut choices = Vec::new(alloc);
        for had in &self.choices {
            if had.is_within(stretch.start, end) {
                choices.push(had.at(had.start.saturating_sub(stretch.start)))?;
            }
        }
        let codes = Vec::from_slice(alloc, stretch.codes.as_slice())?;
        Ok(Phrasing {
            codes,
            found,
            breaks,
            choices,
        })
    }

    /// Looks each stretch up, from left to right, and shows the best of it.
    pub(crate) fn look(&mut self, alloc: Global) -> Result<(), Fail> {
        let mut shown = Vec::new(alloc);
        for stretch in &stretches(alloc, &self.cells)? {
            let phrasing = self.phrasing(alloc, stretch)?;
            for part in &phrasing.best(alloc, &self.system)? {
                shown.push(part.at(part.start.saturating_add(stretch.start)))?;
            }
        }
        self.shown = shown;
        Ok(())
    }

    /// The best parts of a stretch in place of those before.
    pub(crate) fn renew(
        &mut self,
        alloc: Global,
        stretch: &Stretch,
        best: &[Part],
    ) -> Result<(), Fail> {
        let end = stretch.start.saturating_add(stretch.codes.len());
        let mut shown = Vec::new(alloc);
        for had in &self.shown {
            if had.end() <= stretch.start {
                shown.push(had.copy())?;
            }
        }
        for part in best {
            shown.push(part.at(part.start.saturating_add(stretch.start)))?;
        }
        for had in &self.shown {
            if had.start >= end {
                shown.push(had.copy())?;
            }
        }
        self.shown = shown;
        Ok(())
    }

    /// The parts that are shown, once more.
    pub(crate) fn parts(&self, alloc: Global) -> Result<Vec<Part>, Fail> {
        Ok(copies(alloc, &self.shown)?)
    }

    /// The line that shows all this, with a note.
    pub(crate) fn output_line(&self, alloc: Global, note: &str) -> Result<String, Fail> {
        let preedit = self.text(alloc, 0, self.cells.len())?;
        let mut column: usize = 0;
        for character in self.characters(alloc)?.iter().take(self.cursor) {
            column = column.saturating_add(if *character < '\u{80}' { 1 } else { 2 });
        }
        let held = self.layout.shown();
        let held = held.as_str();
        let commit = self.commit.as_str();
        let window = match &self.opened {
            Some(opened) => opened.text(alloc, &self.rules.selection)?,
            None => String::new(alloc),
        };
        Ok(format!(in alloc; "{preedit}\t{column}\t{held}\t{commit}\t{window}\t{note}\n")?)
    }
}
