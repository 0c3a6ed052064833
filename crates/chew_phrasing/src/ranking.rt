ghost use Rattle.std.specs.Prelude.{◌≡◌, ◌+◌, ◌*◌, ◌/◌, ◌^◌, ◌≤◌, ◌<◌, List, IfOk, length, sum, ◌++◌, ◌∷◌, []};
ghost use Rattle.std.specs.Ordering.{is_lt};
ghost use Rattle.chew_spec_phrasing.specs.Best.{IsBest, segmentation_cmp};
ghost use Rattle.chew_spec_phrasing.specs.Segmentation.{IsSegmentation};
ghost use Rattle.chew_spec_phrasing.specs.Usable as spec;
ghost use Rattle.chew_phrasing.specs.Grid.{piece_in};
ghost use Rattle.chew_phrasing.specs.Table as table;
ghost use Rattle.chew_phrasing.specs.Table.{GivesPieces, IsOfRun, IsTable, IsTop, Stands};

use crate::entry::Entry;
use crate::grid::Grid;
use crate::level::Level;
use crate::order::{lengths_order, pieces_of};
use crate::piece::Piece;
use crate::table::levels;
use chew_syllable::NoMemory;
use std::alloc::Global;
use std::cmp::Ordering;

/// The best segmentation of the grid's run.
pub(crate) fn best_in(alloc: Global, grid: &Grid) -> Result<Vec<Piece>, NoMemory>
    requires pieces { GivesPieces (piece_in grid.now) }
    requires some { 0 < grid.now.cells }
    requires possible { (order : List spec.Piece) × IsSegmentation (piece_in grid.now) 0 grid.now.cells order }
    ensures { IfOk result (λ pieces. IsBest (piece_in grid.now) grid.now.cells pieces.items) }
{
    let levels = levels(alloc, grid)?;
    let entry = best_entry(grid, &levels);
    pieces_of(alloc, grid, &levels, entry)
}

/// The entry of the best order of the grid's run.
fn best_entry(grid: &Grid, levels: &[Level]) -> Entry
    requires pieces { GivesPieces (piece_in grid.now) }
    requires some { 0 < grid.now.cells }
    requires possible { (order : List spec.Piece) × IsSegmentation (piece_in grid.now) 0 grid.now.cells order }
    requires all { length levels.now ≡ grid.now.cells + 1 }
    requires table { IsTable (piece_in grid.now) grid.now.cells levels.now }
    ensures one { IsOfRun (piece_in grid.now) levels.now grid.now.cells result }
    ensures best { (order : List spec.Piece) → Stands (piece_in grid.now) levels.now grid.now.cells grid.now.cells result order
        → IsBest (piece_in grid.now) grid.now.cells order }
{
    let entries = levels[grid.cells()].entries();
    let mut best = entries[0];
    for entry in entries {
        best = better(grid, levels, best, *entry);
    }
    best
}

/// The better of two orders, and of orders that tie the first.
fn better(grid: &Grid, levels: &[Level], best: Entry, entry: Entry) -> Entry
    requires some { 0 < grid.now.cells }
    requires pieces { GivesPieces (piece_in grid.now) }
    requires best { IsOfRun (piece_in grid.now) levels.now grid.now.cells best }
    requires entry { IsOfRun (piece_in grid.now) levels.now grid.now.cells entry }
    ensures one { IsOfRun (piece_in grid.now) levels.now grid.now.cells result }
    ensures top { (seen : List table.Entry) → IsTop (piece_in grid.now) levels.now grid.now.cells seen best
        → IsTop (piece_in grid.now) levels.now grid.now.cells (seen ++ (entry ∷ [])) result }
{
    if is_beaten(grid, levels, &best, &entry) {
        entry
    } else {
        best
    }
}

/// Whether the other order is better: by the score, then by the first lengths that differ.
fn is_beaten(grid: &Grid, levels: &[Level], best: &Entry, other: &Entry) -> bool
    requires some { 0 < grid.now.cells }
    requires pieces { GivesPieces (piece_in grid.now) }
    requires best { IsOfRun (piece_in grid.now) levels.now grid.now.cells best.now }
    requires other { IsOfRun (piece_in grid.now) levels.now grid.now.cells other.now }
    ensures { (mine yours : List spec.Piece) → Stands (piece_in grid.now) levels.now grid.now.cells grid.now.cells best.now mine
        → Stands (piece_in grid.now) levels.now grid.now.cells grid.now.cells other.now yours → result ≡ is_lt (segmentation_cmp mine yours) }
{
    let syllables = grid.cells();
    let score = gain_of(best, syllables) + loss_of(other);
    let other_score = gain_of(other, syllables) + loss_of(best);
    match score.cmp(&other_score) {
        Ordering::Equal => lengths_order(levels, syllables, best, other).is_lt(),
        unequal => unequal.is_lt(),
    }
}

/// What an order of so many syllables gains.
fn gain_of(entry: &Entry, syllables: usize) -> u64
    requires few { syllables ≤ 39 }
    requires some { 0 < sum entry.now.counts }
    requires freq { entry.now.freq ≤ 39 * 2 ^ 32 }
    ensures value { result ≡ 1000 * syllables + 1000 * (6 * syllables / sum entry.now.counts) + entry.now.freq }
    ensures small { result < 2 ^ 62 }
{
    let syllables = syllables as u64;
    1000 * syllables + 1000 * (6 * syllables / entry.counts.pieces()) + entry.freq
}

/// What an order loses.
fn loss_of(entry: &Entry) -> u64
    ensures value { result ≡ 100 * entry.now.spread }
    ensures small { result < 2 ^ 40 }
{
    100 * u64::from(entry.spread)
}
