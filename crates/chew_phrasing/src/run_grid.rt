ghost use Rattle.std.specs.Prelude.{◌≡◌, ◌≤◌, ◌<◌, ◌+◌, ◌++◌, ◌∷◌, [], All, IfOk, List, OnOk, length};
ghost use Rattle.chew_spec_dictionary.specs.Look as look;
ghost use Rattle.chew_spec_phrasing.specs.CombinedRows.{combined_hits};
ghost use Rattle.chew_spec_phrasing.specs.Usable.{phrase_len, piece_at};
ghost use Rattle.chew_phrasing.specs.FirstPlace.{IsKnown};
ghost use Rattle.chew_phrasing.specs.Grid.{IsFilled, IsGrid, IsInside};

use crate::combined::hits_at;
use crate::first_place::FirstPlace;
use crate::first_row::first_row;
use crate::grid::Grid;
use crate::piece::{Choice, piece_of_hit};
use crate::rules::is_unbroken;
use chew_plain::{Hit, Interval, Lexicon, intervals};
use chew_syllable::{NoMemory, Syllable};
use std::alloc::Global;

/// The grid of a run by its combined rows, of which no list is made: those of the system, and those that were found.
pub(crate) fn grid_of_run<L: Lexicon>(
    alloc: Global,
    system: &L,
    run: &[Syllable],
    user: &[Hit],
    breaks: &[u8],
    choices: &[Choice],
) -> Result<Grid, NoMemory>
    requires short { length run.now ≤ 39 }
    ensures cells { IfOk result (λ grid. grid.cells ≡ length run.now) }
    ensures short { OnOk result (All (λ choice. phrase_len choice.phrase ≤ 11) choices.now) }
    ensures grid { IfOk result (λ grid. IsGrid (piece_at (combined_hits (L.rows system.now) run.now user.now) breaks.now choices.now) grid) }
{
    let mut grid = Grid::of_choices(alloc, run.len(), choices)?;
    let all = intervals(alloc, run.len())?;
    let mut firsts = Vec::new(alloc);
    for at in all.as_slice() {
        fill(
            &mut grid,
            &mut firsts,
            system,
            run,
            user,
            breaks,
            choices,
            *at,
        )?;
    }
    Ok(grid)
}

/// Finds the piece of an interval of the run, where it has none yet.
fn fill<L: Lexicon>(
    grid: &mut Grid,
    firsts: &mut Vec<FirstPlace>,
    system: &L,
    run: &[Syllable],
    user: &[Hit],
    breaks: &[u8],
    choices: &[Choice],
    at: Interval,
) -> Result<(), NoMemory>
    requires inside { IsInside grid.old.cells at }
    requires run { grid.old.cells ≡ length run.now }
    requires firsts { All (IsKnown (L.rows system.now)) firsts.old.items }
    ensures firsts { OnOk result (All (IsKnown (L.rows system.now)) firsts.new.items) }
    ensures cells { grid.new.cells ≡ grid.old.cells }
    ensures filled { OnOk result ((done : List look.Interval)
        → IsFilled (piece_at (combined_hits (L.rows system.now) run.now user.now) breaks.now choices.now) (piece_at [] breaks.now choices.now) done grid.old
        → IsFilled (piece_at (combined_hits (L.rows system.now) run.now user.now) breaks.now choices.now)
        (piece_at [] breaks.now choices.now) (done ++ (at ∷ [])) grid.new) }
{
    if !grid.is_free(at) {
        return Ok(());
    }
    if !is_unbroken(breaks, at) {
        return Ok(());
    }
    let found = hits_at(*firsts.allocator(), user, at)?;
    let key = &run[at.start..at.start + at.len];
    let first = first_row(system, key, &found, choices, at, firsts)?;
    match first {
        Some(hit) => {
            grid.put(at, piece_of_hit(&hit));
            Ok(())
        }
        None => Ok(()),
    }
}
