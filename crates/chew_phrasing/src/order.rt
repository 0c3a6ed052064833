ghost use Rattle.std.specs.Prelude.{◌≡◌, ◌+◌, ◌≤◌, ◌<◌, List, IfOk, length};
ghost use Rattle.std.specs.Cmp.Lexicographic.{slice_cmp};
ghost use Rattle.std.specs.Ordering.{is_lt, nat_cmp};
ghost use Rattle.chew_spec_phrasing.specs.Best.{segmentation_cmp};
ghost use Rattle.chew_spec_phrasing.specs.Segmentation.{lengths};
ghost use Rattle.chew_spec_phrasing.specs.Usable as spec;
ghost use Rattle.chew_phrasing.specs.Grid.{piece_in};
ghost use Rattle.chew_phrasing.specs.Table.{CanGoOn, GoesOn, HasOrder, Leads, Stands};

use crate::entry::Entry;
use crate::grid::Grid;
use crate::level::Level;
use crate::piece::Piece;
use chew_plain::Interval;
use chew_syllable::NoMemory;
use std::alloc::Global;
use std::cmp::Ordering;

/// The entry of what follows an order's first piece.
fn next(levels: &[Level], left: usize, entry: &Entry) -> Entry
    requires { CanGoOn levels.now left entry.now }
    ensures { GoesOn levels.now left entry.now result }
{
    levels[left - usize::from(entry.len)].entries()[entry.rest]
}

/// How the lengths of two orders of `left` syllables stand to each other, by the first that differ.
pub(crate) fn lengths_order(levels: &[Level], left: usize, entry: &Entry, other: &Entry) -> Ordering
    requires order { HasOrder levels.now left entry.now }
    requires other { HasOrder levels.now left other.now }
    ensures { (mine yours : List spec.Piece) → Leads levels.now left entry.now mine → Leads levels.now left other.now yours
        → result ≡ slice_cmp nat_cmp (lengths mine) (lengths yours) }
{
    if left == 0 {
        return Ordering::Equal;
    }
    match entry.len.cmp(&other.len) {
        Ordering::Equal => {
            let rest = left - usize::from(entry.len);
            lengths_order(
                levels,
                rest,
                &next(levels, left, entry),
                &next(levels, left, other),
            )
        }
        unequal => unequal,
    }
}

/// The pieces that an entry of all syllables of the grid's run stands for.
pub(crate) fn pieces_of(
    alloc: Global,
    grid: &Grid,
    levels: &[Level],
    entry: Entry,
) -> Result<Vec<Piece>, NoMemory>
    requires order { (order : List spec.Piece) × Stands (piece_in grid.now) levels.now grid.now.cells grid.now.cells entry order }
    ensures { IfOk result (λ pieces. (order : List spec.Piece)
        → Stands (piece_in grid.now) levels.now grid.now.cells grid.now.cells entry order → pieces.items ≡ order) }
{
    let mut pieces = Vec::new(alloc);
    let mut left = grid.cells();
    let mut entry = entry;
    while left > 0 {
        let start = grid.cells() - left;
        let len = usize::from(entry.len);
        pieces.push(grid.piece(Interval { start, len }))?;
        entry = next(levels, left, &entry);
        left -= len;
    }
    Ok(pieces)
}
