ghost use Rattle.std.specs.Prelude.{◌≡◌, ◌<◌, ◌≤◌, ◌-◌, ◌∷◌, [], IfOk, length};
ghost use Rattle.chew_phrasing.specs.Grid.{piece_in};
ghost use Rattle.chew_phrasing.specs.Table.{GivesPieces, IsLevel, IsPart, IsTable, end_of_run};

use crate::entry::{Entry, all_behind};
use crate::grid::Grid;
use crate::merge::merge;
use crate::scoring::weight_of;
use chew_plain::Interval;
use chew_syllable::{KEY_LIMIT, NoMemory};
use std::alloc::Global;
use std::cmp::min;
use std::marker::Model;

/// The best orders of so many syllables up to a run's end: one for each multiset of lengths.
#[derive(Drop)]
pub(crate) struct Level {
    entries: Vec<Entry>,
}

impl Model for Level {
    ghost use Rattle.std.specs.Prelude.{List};
    ghost use Rattle.chew_phrasing.specs.Table as spec;

    ghost Value = { List spec.Entry };

    ghost view = { λ level. level.entries.items };
}

impl Level {
    /// That of no syllables.
    pub(crate) fn at_end(alloc: Global) -> Result<Level, NoMemory>
        ensures { IfOk result (λ level. level ≡ end_of_run ∷ []) }
    {
        let mut entries = Vec::new(alloc);
        entries.push(Entry::end_of_run())?;
        Ok(Level { entries })
    }

    /// That of the last `left` syllables of the grid's run, by those of fewer syllables.
    pub(crate) fn of(
        alloc: Global,
        grid: &Grid,
        levels: &[Level],
        left: usize,
    ) -> Result<Level, NoMemory>
        requires pieces { GivesPieces (piece_in grid.now) }
        requires some { 1 ≤ left }
        requires inside { left ≤ grid.now.cells }
        requires levels { length levels.now ≡ left }
        requires table { IsTable (piece_in grid.now) grid.now.cells levels.now }
        ensures { IfOk result (λ level. IsLevel (piece_in grid.now) levels.now grid.now.cells left level) }
    {
        let most = min(KEY_LIMIT, left);
        let mut entries = Vec::new(alloc);
        for shorter in 0..most {
            entries = with_length(alloc, grid, levels, left, most - shorter, entries)?;
        }
        Ok(Level { entries })
    }

    /// Its orders.
    pub(crate) fn entries(&self) -> &[Entry]
        ensures { result.now ≡ self.now }
    {
        self.entries.as_slice()
    }
}

/// The orders of `left` syllables whose first piece is longer than `len`, and those in which it is as long.
fn with_length(
    alloc: Global,
    grid: &Grid,
    levels: &[Level],
    left: usize,
    len: usize,
    entries: Vec<Entry>,
) -> Result<Vec<Entry>, NoMemory>
    requires pieces { GivesPieces (piece_in grid.now) }
    requires some { 1 ≤ len }
    requires short { len ≤ 11 }
    requires within { len ≤ left }
    requires inside { left ≤ grid.now.cells }
    requires levels { length levels.now ≡ left }
    requires table { IsTable (piece_in grid.now) grid.now.cells levels.now }
    requires longer { IsPart (piece_in grid.now) levels.now grid.now.cells left len entries.items }
    ensures { IfOk result (λ all. IsPart (piece_in grid.now) levels.now grid.now.cells left (len - 1) all.items) }
{
    let start = grid.cells() - left;
    match grid.piece_at(Interval { start, len }) {
        Some(piece) => {
            let rest = levels[left - len].entries();
            let part = all_behind(alloc, rest, len, weight_of(len as u8, piece.freq))?;
            merge(alloc, &entries, &part)
        }
        None => Ok(entries),
    }
}
