ghost use Rattle.std.specs.Prelude.{◌≡◌, List, [], ◌∷◌, MatchOption};
ghost use Rattle.std.specs.Iterator.{YieldsFirstBy, item_count};
ghost use Rattle.chew_spec_layers.specs.Mark.{Marked, row_of_mark};
ghost use Rattle.chew_buffer.specs.Marks.{meaning};
ghost use Rattle.chew_merge.specs.Rest.{IsSound, IsStep, first_cmp, rows_together};
ghost use Rattle.chew_merge.specs.MarkRefs.{marked};

use crate::rows::{live_row, next_row};
use chew_buffer::{Buffer, MarkRef, MarksIter, pair_order};
use chew_syllable::KeyRow;
use chew_trie_read::{EachIter, Trie};
use std::cmp::Ordering;
use std::marker::Model;

/// The rows of a map under a layer, in image order: those of the map whose pair has no mark, and those of the live
/// marks. It is seen as the rows and the marks that are left. The first of each are read ahead.
#[derive(Drop)]
pub(crate) struct Overlaid<'a> {
    row: Option<KeyRow>,
    rows: EachIter<'a>,
    mark: Option<MarkRef<'a>>,
    marks: MarksIter<'a>,
}

impl<'a> Model for Overlaid<'a> {
    ghost use Rattle.std.specs.Prelude.{option_map};
    ghost use Rattle.chew_merge.specs.Rest.{IsSound, Rest, ahead};
    ghost use Rattle.chew_merge.specs.MarkRefs.{marked};

    ghost Value = { Rest };

    ghost view = { λ it. record { rows = ahead it.row it.rows; marks = ahead (option_map marked it.mark) it.marks } };

    ghost invariant = { λ it. IsSound (record { rows = ahead it.row it.rows; marks = ahead (option_map marked it.mark) it.marks }) };
}

impl<'a> Overlaid<'a> {
    /// All rows of a map under a layer.
    pub(crate) fn of(base: &'a Trie, layer: &'a Buffer) -> Overlaid<'a>
        ensures value { result ≡ record { rows = base.now; marks = layer.now } }
        ensures sound { IsSound (record { rows = base.now; marks = layer.now }) }
    {
        let _total = base.total();
        let mut rows = base.each();
        let mut marks = layer.marks();
        Overlaid {
            row: next_row(&mut rows),
            rows,
            mark: marks.next(),
            marks,
        }
    }

    /// The first row of the map, which is left out from then on.
    fn take_row(&mut self) -> Option<KeyRow>
        ensures rows { MatchOption result ((self.old.rows ≡ []) × (self.new.rows ≡ [])) (λ row. self.old.rows ≡ row ∷ self.new.rows) }
        ensures marks { self.new.marks ≡ self.old.marks }
    {
        let row = self.row.take()?;
        self.row = next_row(&mut self.rows);
        Some(row)
    }

    /// The first mark.
    fn first_mark(&self) -> Option<MarkRef<'a>>
        ensures first { MatchOption result (self.now.marks ≡ []) (λ mark. (rest : List Marked) × (self.now.marks ≡ marked mark ∷ rest)) }
        ensures sound { IsSound self.now }
    {
        self.mark
    }

    /// The row that the first mark gives its pair, if it gives one. The mark is left out from then on.
    fn take_mark(&mut self, mark: MarkRef<'a>) -> Option<KeyRow>
        requires first { (rest : List Marked) × (self.old.marks ≡ marked mark ∷ rest) }
        ensures row { result ≡ row_of_mark mark.entry.key.now mark.entry.phrase.now (meaning mark.entry.mark) }
        ensures marks { self.old.marks ≡ marked mark.entry ∷ self.new.marks }
        ensures rows { self.new.rows ≡ self.old.rows }
    {
        self.mark = self.marks.next();
        live_row(&mark)
    }

    /// How the first row stands to a mark in image order; where no row is left, the mark comes first.
    fn order_to(&self, mark: &MarkRef<'a>) -> Ordering
        ensures { result ≡ first_cmp self.now.rows (marked mark.now) }
    {
        match &self.row {
            Some(row) => pair_order(&row.key, &row.phrase, mark.key, mark.phrase),
            None => Ordering::Greater,
        }
    }

    /// Makes one step, at which a row or a mark is left out: it gives the first row of both together, or leaves the rows that
    /// they have together as they are.
    fn step(&mut self, mark: MarkRef<'a>) -> Option<KeyRow>
        requires first { (rest : List Marked) × (self.old.marks ≡ marked mark ∷ rest) }
        requires sound { IsSound self.old }
        ensures { IsStep self.old result self.new }
    {
        match self.order_to(&mark) {
            Ordering::Less => self.take_row(),
            Ordering::Equal => {
                let _hidden = self.take_row();
                None
            }
            Ordering::Greater => self.take_mark(mark),
        }
    }

    /// The first row of both together, which is left out from then on.
    fn take(&mut self) -> Option<KeyRow>
        ensures { MatchOption result ((rows_together self.old ≡ []) × (rows_together self.new ≡ []))
            (λ row. rows_together self.old ≡ row ∷ rows_together self.new) }
    {
        'merging: while let Some(mark) = self.first_mark() {
            if let Some(row) = self.step(mark) {
                return Some(row);
            }
        }
        self.take_row()
    }
}

impl<'a> Iterator for Overlaid<'a> {
    type Item = KeyRow;

    ghost next_gives = { YieldsFirstBy (λ row. row) rows_together };

    ghost remaining = { item_count rows_together };

    fn next(&mut self) -> Option<KeyRow> {
        self.take()
    }
}
