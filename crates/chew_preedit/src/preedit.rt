ghost use Rattle.std.specs.Prelude.{◌≡◌, ◌+◌, ◌≤◌, ◌&&◌, IsTrue, drop, length, map, nat_le, take};
ghost use Rattle.std.specs.List.{list_all};
ghost use Rattle.chew_spec_preedit.specs.Buffer.{empty_buffer, is_buffer};
ghost use Rattle.chew_spec_preedit.specs.Cell.{has_sound, is_sound};
ghost use Rattle.chew_spec_preedit.specs.Edit.{can_break, is_full};
ghost use Rattle.chew_preedit.specs.CellItem.{cell_of};

use crate::cell_item::{CellItem, are_sounds, cells_behind, is_sound_at};
use crate::copied::{breaks_copied, choices_copied};
use crate::splice::CELL_LIMIT;
use arrayvec::ArrayVec;
use chew_phrasing::Choice;
use std::marker::Model;

/// The cells that are typed and not committed yet, at most 39 of them; the cursor; the places at which no piece may
/// reach across; and the phrases that the user chose for some cells. No call of it takes memory.
#[derive(Debug, Drop)]
pub struct Preedit {
    pub(crate) limit: u8,
    pub(crate) cells: ArrayVec<CellItem, CELL_LIMIT>,
    pub(crate) cursor: u8,
    pub(crate) breaks: ArrayVec<u8, CELL_LIMIT>,
    pub(crate) choices: ArrayVec<Choice, CELL_LIMIT>,
}

impl Model for Preedit {
    ghost use Rattle.std.specs.Prelude.{IsTrue, map};
    ghost use Rattle.chew_spec_preedit.specs.Buffer.{Buffer, is_buffer};

    ghost Value = { Buffer };

    ghost use Rattle.chew_preedit.specs.CellItem.{cell_of};

    ghost view = { λ p. record { limit = p.limit; cells = map cell_of p.cells.items; cursor = p.cursor; breaks = p.breaks.items; choices = p.choices.items } };

    ghost invariant = { λ p. IsTrue
        (is_buffer (record { limit = p.limit; cells = map cell_of p.cells.items; cursor = p.cursor; breaks = p.breaks.items; choices = p.choices.items })) };
}

impl Preedit {
    /// An empty buffer of at most so many cells, 1 to 39.
    pub fn of(limit: u8) -> Preedit
        requires some { 1 ≤ limit }
        requires most { limit ≤ 39 }
        ensures { result ≡ empty_buffer limit }
    {
        Preedit {
            limit,
            cells: ArrayVec::new(),
            cursor: 0,
            breaks: ArrayVec::new(),
            choices: ArrayVec::new(),
        }
    }

    /// The cells, in order.
    pub fn cells(&self) -> &[CellItem]
        ensures value { map cell_of result.now ≡ self.now.cells }
        ensures valid { IsTrue (is_buffer self.now) }
    {
        self.cells.as_slice()
    }

    /// The cursor, a place from 0 to the number of cells.
    pub fn cursor(&self) -> u8
        ensures value { result ≡ self.now.cursor }
        ensures valid { IsTrue (is_buffer self.now) }
    {
        self.cursor
    }

    /// The places at which no piece may reach across, rising, each between two syllables.
    pub fn breaks(&self) -> &[u8]
        ensures value { result.now ≡ self.now.breaks }
        ensures valid { IsTrue (is_buffer self.now) }
    {
        self.breaks.as_slice()
    }

    /// The phrases that the user chose, from left to right. They lie apart, each in one run with no break inside.
    pub fn choices(&self) -> &[Choice]
        ensures value { result.now ≡ self.now.choices }
        ensures valid { IsTrue (is_buffer self.now) }
    {
        self.choices.as_slice()
    }

    /// Whether the buffer takes no cell more.
    pub fn is_full(&self) -> bool
        ensures { result ≡ is_full self.now }
    {
        usize::from(self.limit) <= self.cells.len()
    }

    /// Whether there is a syllable at a place.
    pub fn has_sound(&self, place: usize) -> bool
        ensures { result ≡ has_sound self.now.cells place }
    {
        is_sound_at(&self.cells, place)
    }

    /// Whether so many cells from the cursor on are there, all of them syllables.
    pub fn has_sounds_ahead(&self, len: u8) -> bool
        ensures { result ≡ (nat_le (self.now.cursor + len) (length self.now.cells) && list_all is_sound (take len (drop self.now.cursor self.now.cells))) }
    {
        let start = usize::from(self.cursor);
        let end = start + usize::from(len);
        if end > self.cells.len() {
            return false;
        }
        are_sounds(self.cells.as_slice(), start, end)
    }

    /// Whether a syllable stands right before the cursor and one right behind it.
    pub fn can_break(&self) -> bool
        ensures { result ≡ can_break self.now }
    {
        if self.cursor == 0 {
            return false;
        }
        let place = usize::from(self.cursor);
        is_sound_at(&self.cells, place - 1) && is_sound_at(&self.cells, place)
    }

    /// The same buffer once more.
    pub fn copy(&self) -> Preedit
        ensures { result ≡ self.now }
    {
        Preedit {
            limit: self.limit,
            cells: cells_behind(self.cells.as_slice(), 0),
            cursor: self.cursor,
            breaks: breaks_copied(self.breaks.as_slice()),
            choices: choices_copied(self.choices.as_slice()),
        }
    }
}
