ghost use Rattle.std.specs.Prelude.{◌≡◌, ℕ, ◌*◌, ◌<◌, ◌≤◌, ◌++◌, ◌∷◌, [], List, All, IfOk, OnOk, IsSome, None, Some, length, is_none, ◌&&◌};
ghost use Rattle.std.specs.Option.{option_copied};
ghost use Rattle.chew_spec_dictionary.specs.Call as dictionary;
ghost use Rattle.chew_spec_phrasing.specs.Usable as spec;
ghost use Rattle.chew_spec_phrasing.specs.Usable.{is_unbroken, keeps_choices, phrase_len};
ghost use Rattle.chew_phrasing.specs.Grid.{IsGrid, IsInside, in_slot, piece_in, put_in, slot_of};

use crate::piece::{Choice, Piece, piece_of_choice, piece_of_hit};
use crate::rules::{is_unbroken, keeps_choices};
use chew_plain::{Hit, Interval};
use chew_syllable::{KEY_LIMIT, NoMemory};
use std::alloc::Global;
use std::marker::Model;

/// The pieces of all intervals of a run, each found once.
#[derive(Drop)]
pub(crate) struct Grid {
    cells: usize,
    slots: Vec<Option<Piece>>,
}

impl Model for Grid {
    ghost use Rattle.std.specs.Prelude.{◌≡◌, ◌≤◌, ◌*◌, length};
    ghost use Rattle.chew_phrasing.specs.Grid as found;

    ghost Value = { found.Grid };

    ghost view = { λ grid. record { cells = grid.cells; slots = grid.slots.items } };

    ghost invariant = { λ grid. (grid.cells ≤ 39) × (length grid.slots.items ≡ grid.cells * 11) };
}

impl Grid {
    /// Of a run of so many cells, with the choices as pieces and no others.
    pub(crate) fn of_choices(
        alloc: Global,
        cells: usize,
        choices: &[Choice],
    ) -> Result<Grid, NoMemory>
        requires short { cells ≤ 39 }
        ensures cells { IfOk result (λ grid. grid.cells ≡ cells) }
        ensures short { OnOk result (All (λ choice. phrase_len choice.phrase ≤ 11) choices.now) }
        ensures grid { IfOk result (λ grid. (breaks : List ℕ) → IsGrid (spec.piece_at [] breaks choices.now) grid) }
    {
        let mut grid = Grid::empty(alloc, cells)?;
        for choice in choices {
            grid.offer_choice(choice);
        }
        Ok(grid)
    }

    /// Of a run of so many cells: with the choices as pieces, and of the rows the first of each other interval that the
    /// breaks and the choices let stand.
    pub(crate) fn of_rows(
        alloc: Global,
        cells: usize,
        rows: &[Hit],
        breaks: &[u8],
        choices: &[Choice],
    ) -> Result<Grid, NoMemory>
        requires short { cells ≤ 39 }
        ensures cells { IfOk result (λ grid. grid.cells ≡ cells) }
        ensures short { OnOk result (All (λ choice. phrase_len choice.phrase ≤ 11) choices.now) }
        ensures grid { IfOk result (λ grid. IsGrid (spec.piece_at rows.now breaks.now choices.now) grid) }
    {
        let mut grid = Grid::of_choices(alloc, cells, choices)?;
        for row in rows {
            grid.offer_row(row, breaks, choices);
        }
        Ok(grid)
    }

    /// Of a run of so many cells, with no pieces.
    fn empty(alloc: Global, cells: usize) -> Result<Grid, NoMemory>
        requires short { cells ≤ 39 }
        ensures cells { IfOk result (λ grid. grid.cells ≡ cells) }
        ensures grid { IfOk result (λ grid. (breaks : List ℕ) → IsGrid (spec.piece_at [] breaks []) grid) }
    {
        let count = cells * KEY_LIMIT;
        let mut slots = Vec::with_capacity(alloc, count)?;
        for _ in 0..count {
            slots.push(None)?;
        }
        Ok(Grid { cells, slots })
    }

    /// How many cells the run has.
    pub(crate) fn cells(&self) -> usize
        ensures value { result ≡ self.now.cells }
        ensures short { result ≤ 39 }
    {
        self.cells
    }

    /// The piece of an interval of the run.
    #[tactic(auto, unfolding(crate::specs::Grid::piece_in))]
    pub(crate) fn piece_at(&self, at: Interval) -> Option<&Piece>
        requires { IsInside self.now.cells at }
        ensures { option_copied result ≡ piece_in self.now at }
    {
        self.slots[slot_of(at)].as_ref()
    }

    /// The piece of an interval that has one.
    #[tactic(auto, unfolding(crate::specs::Grid::piece_in))]
    pub(crate) fn piece(&self, at: Interval) -> Piece
        requires { IsSome (piece_in self.now at) }
        ensures { Some result ≡ piece_in self.now at }
    {
        match &self.slots[slot_of(at)] {
            Some(piece) => piece.copy(),
            None => unreachable!(),
        }
    }

    /// Whether the slot of an interval is empty.
    pub(crate) fn is_free(&self, at: Interval) -> bool
        requires { IsInside self.now.cells at }
        ensures { result ≡ is_none (in_slot self.now at) }
    {
        self.slots[slot_of(at)].is_none()
    }

    /// Puts a piece into the slot of an interval.
    pub(crate) fn put(&mut self, at: Interval, piece: Piece)
        requires { IsInside self.old.cells at }
        ensures value { self.new ≡ put_in self.old at piece }
        ensures whole { length self.old.slots ≡ self.old.cells * 11 }
    {
        self.slots[slot_of(at)] = Some(piece);
    }

    /// Makes a choice the piece of its cells, where an earlier one isn't.
    fn offer_choice(&mut self, choice: &Choice)
        ensures cells { self.new.cells ≡ self.old.cells }
        ensures short { phrase_len choice.now.phrase ≤ 11 }
        ensures grid { (breaks : List ℕ) (before : List spec.Choice) → IsGrid (spec.piece_at [] breaks before) self.old
            → IsGrid (spec.piece_at [] breaks (before ++ (choice.now ∷ []))) self.new }
    {
        let start = usize::from(choice.start);
        let len = choice.phrase.characters();
        if start + len > self.cells {
            return;
        }
        let at = Interval { start, len };
        if !self.is_free(at) {
            return;
        }
        self.put(at, piece_of_choice(choice));
    }

    /// Makes a row the piece of its interval, where nothing else is and it may be one.
    fn offer_row(&mut self, row: &Hit, breaks: &[u8], choices: &[Choice])
        ensures cells { self.new.cells ≡ self.old.cells }
        ensures grid { (before : List dictionary.Hit) → IsGrid (spec.piece_at before breaks.now choices.now) self.old
            → IsGrid (spec.piece_at (before ++ (row.now ∷ [])) breaks.now choices.now) self.new }
    {
        let start = usize::from(row.start);
        let len = usize::from(row.len);
        if start + len > self.cells {
            return;
        }
        let at = Interval { start, len };
        if !self.is_free(at) {
            return;
        }
        if !may_stand(row, breaks, choices, at) {
            return;
        }
        self.put(at, piece_of_hit(row));
    }
}

/// The slot of an interval.
fn slot_of(at: Interval) -> usize
    requires some { 1 ≤ at.len }
    ensures { result ≡ slot_of at }
{
    at.start * KEY_LIMIT + (at.len - 1)
}

/// Whether the breaks and the choices let a row of the interval be a piece.
fn may_stand(row: &Hit, breaks: &[u8], choices: &[Choice], at: Interval) -> bool
    ensures { result ≡ (is_unbroken breaks.now at && keeps_choices choices.now at row.now.phrase) }
{
    is_unbroken(breaks, at) && keeps_choices(choices, at, row.phrase.text())
}
