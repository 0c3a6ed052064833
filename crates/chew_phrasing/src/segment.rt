ghost use Rattle.std.specs.Prelude.{◌≡◌, ◌<◌, IfOk, Some, length};
ghost use Rattle.chew_spec_phrasing.specs.Best.{best_of, best_pieces};
ghost use Rattle.chew_spec_phrasing.specs.CombinedRows.{combined_hits};
ghost use Rattle.chew_spec_phrasing.specs.CanSegment.{CanSegment};

use crate::grid::Grid;
use crate::piece::{Choice, Piece};
use crate::ranking::best_in;
use crate::run_grid::grid_of_run;
use chew_plain::{Hit, Lexicon};
use chew_syllable::{NoMemory, Run};
use std::alloc::Global;

/// The best segmentation of the run, of all there are: none has a greater score, and of those with its score it is
/// longer at the first lengths that differ. `rows` are the run's combined rows.
pub fn best(
    alloc: Global,
    run: &Run,
    rows: &[Hit],
    breaks: &[u8],
    choices: &[Choice],
) -> Result<Vec<Piece>, NoMemory>
    requires some { 0 < length run.now }
    requires possible { CanSegment rows.now choices.now (length run.now) }
    ensures { IfOk result (λ pieces. best_of rows.now breaks.now choices.now (length run.now) ≡ Some pieces.items) }
{
    let grid = Grid::of_rows(alloc, run.list().len(), rows, breaks, choices)?;
    best_in(alloc, &grid)
}

/// The best segmentation of the run by the system and by what a look for the run found: that by their combined rows, of
/// which no list is made. What it costs grows with the rows of the run's keys, and not with how many are shown.
pub fn best_of_run<L: Lexicon>(
    alloc: Global,
    system: &L,
    run: &Run,
    user: &[Hit],
    breaks: &[u8],
    choices: &[Choice],
) -> Result<Vec<Piece>, NoMemory>
    requires some { 0 < length run.now }
    requires possible { CanSegment (combined_hits (L.rows system.now) run.now user.now) choices.now (length run.now) }
    ensures { IfOk result (λ pieces. pieces.items ≡ best_pieces (combined_hits (L.rows system.now) run.now user.now) breaks.now choices.now (length run.now)) }
{
    let grid = grid_of_run(alloc, system, run.list(), user, breaks, choices)?;
    best_in(alloc, &grid)
}
