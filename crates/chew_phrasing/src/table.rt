ghost use Rattle.std.specs.Prelude.{◌≡◌, ◌+◌, ◌≤◌, ◌<◌, IfOk, length};
ghost use Rattle.chew_phrasing.specs.Grid.{piece_in};
ghost use Rattle.chew_phrasing.specs.Table.{GivesPieces, IsTable};

use crate::grid::Grid;
use crate::level::Level;
use chew_syllable::NoMemory;
use std::alloc::Global;

/// The levels of a run: the best orders of no syllables up to its end, of one, and so on up to all.
pub(crate) fn levels(alloc: Global, grid: &Grid) -> Result<Vec<Level>, NoMemory>
    requires pieces { GivesPieces (piece_in grid.now) }
    ensures all { IfOk result (λ levels. length levels.items ≡ grid.now.cells + 1) }
    ensures table { IfOk result (λ levels. IsTable (piece_in grid.now) grid.now.cells levels.items) }
{
    let mut levels = Vec::with_capacity(alloc, grid.cells() + 1)?;
    levels.push(Level::at_end(alloc)?)?;
    for left in 1..grid.cells() + 1 {
        let level = Level::of(alloc, grid, &levels, left)?;
        levels.push(level)?;
    }
    Ok(levels)
}
