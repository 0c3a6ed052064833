//! A second reading of the buffer: each cell bears its own marks, whether a break stands before it and which choice has it.

use crate::samples::letter;
use chew_preedit::Preedit;
use std::alloc::Global;
use std::process::Abort;
use std::test::Fail;

/// A cell by its letter, whether a break stands before it, and the number of the choice that has it, or 0.
#[derive(Clone, Copy)]
struct Mark {
    letter: u8,
    broken: bool,
    chosen: u32,
}

/// Cells with their marks, and the cursor.
#[derive(Drop)]
pub(crate) struct Marked {
    marks: Vec<Mark>,
    cursor: usize,
}

impl Marked {
    /// No cells.
    pub(crate) fn new(alloc: Global) -> Marked {
        Marked {
            marks: Vec::new(alloc),
            cursor: 0,
        }
    }

    /// How many cells there are.
    pub(crate) fn len(&self) -> usize {
        self.marks.len()
    }

    /// The mark at a place, or an empty one past the end.
    fn at(&self, place: usize) -> Mark {
        match self.marks.get(place) {
            Some(mark) => *mark,
            None => Mark {
                letter: b' ',
                broken: false,
                chosen: 0,
            },
        }
    }

    /// Whether a choice has the cells on both sides of a place.
    pub(crate) fn is_inside(&self, place: usize) -> bool {
        place > 0
            && self.at(place).chosen != 0
            && self.at(place - 1).chosen == self.at(place).chosen
    }

    /// No cell bears this choice's number.
    fn clear(&mut self, chosen: u32) {
        for mark in self.marks.iter_mut() {
            if mark.chosen == chosen {
                mark.chosen = 0;
            }
        }
    }

    /// Whether a break stands before the cell at a place is said anew.
    fn set_broken(&mut self, place: usize, broken: bool) {
        if let Some(mark) = self.marks.get_mut(place) {
            mark.broken = broken;
        }
    }

    pub(crate) fn insert(&mut self, letter: u8) -> Result<(), Fail> {
        let place = self.cursor;
        if self.is_inside(place) {
            self.clear(self.at(place).chosen);
        }
        self.set_broken(place, false);
        let mark = Mark {
            letter,
            broken: false,
            chosen: 0,
        };
        if place <= self.marks.len() {
            self.marks.insert(place, mark)?;
        }
        self.cursor = place.saturating_add(1);
        Ok(())
    }

    pub(crate) fn delete(&mut self, place: usize) {
        self.clear(self.at(place).chosen);
        if place < self.marks.len() {
            let _mark = self.marks.remove(place);
        }
        self.set_broken(place, false);
    }

    pub(crate) fn backspace(&mut self) {
        self.cursor = self.cursor.saturating_sub(1);
        self.delete(self.cursor);
    }

    pub(crate) fn move_to(&mut self, place: usize) {
        self.cursor = place;
    }

    pub(crate) fn toggle(&mut self) {
        let place = self.cursor;
        if !self.at(place).broken && self.is_inside(place) {
            self.clear(self.at(place).chosen);
        }
        let broken = self.at(place).broken;
        self.set_broken(place, !broken);
    }

    pub(crate) fn choose(&mut self, start: usize, len: usize, chosen: u32) {
        for offset in 0..len {
            self.clear(self.at(start.saturating_add(offset)).chosen);
        }
        for (place, mark) in self.marks.iter_mut().enumerate() {
            if start <= place && place - start < len {
                mark.chosen = chosen;
            }
        }
    }

    pub(crate) fn release(&mut self, count: usize) {
        for _ in 0..count {
            self.delete(0);
        }
        self.cursor = self.cursor.saturating_sub(count);
    }

    /// The buffer has the same cells, cursor, breaks and choices.
    pub(crate) fn is_same(&self, rt: &impl Abort, buffer: &Preedit) {
        assert_eq!(rt; self.marks.len(), buffer.cells().len());
        for (mark, cell) in self.marks.iter().zip(buffer.cells()) {
            assert_eq!(rt; mark.letter, letter(cell));
        }
        assert_eq!(rt; self.cursor, usize::from(buffer.cursor()));
        let mut breaks = 0usize;
        let mut choices = 0usize;
        for place in 0..self.marks.len() {
            if self.at(place).broken {
                match buffer.breaks().get(breaks) {
                    Some(at) => assert_eq!(rt; usize::from(*at), place),
                    None => panic!(rt; "a break is missing"),
                }
                breaks = breaks.saturating_add(1);
            }
            if self.at(place).chosen != 0 && !self.is_inside(place) {
                match buffer.choices().get(choices) {
                    Some(choice) => {
                        assert_eq!(rt;
                            (usize::from(choice.start), choice.freq),
                            (place, self.at(place).chosen)
                        );
                        self.is_as_long(rt, place, choice.phrase.characters());
                    }
                    None => panic!(rt; "a choice is missing"),
                }
                choices = choices.saturating_add(1);
            }
        }
        assert_eq!(rt;
            (breaks, choices),
            (buffer.breaks().len(), buffer.choices().len())
        );
    }

    /// So many cells from a place on bear its choice's number, and no more.
    fn is_as_long(&self, rt: &impl Abort, place: usize, len: usize) {
        let chosen = self.at(place).chosen;
        let mut count = 0usize;
        for mark in self.marks.iter() {
            if mark.chosen == chosen {
                count = count.saturating_add(1);
            }
        }
        assert_eq!(rt; count, len);
    }
}
