ghost use Rattle.std.specs.Prelude.{◌≡◌, ◌≤◌, find, length, map};
ghost use Rattle.std.specs.Option.{option_copied};
ghost use Rattle.chew_spec_preedit.specs.Buffer.{choice_back};
ghost use Rattle.chew_spec_preedit.specs.PlacedRun.{breaks_in, choices_in, is_in_run, leading_codes, run_at, runs_of};
ghost use Rattle.chew_preedit.specs.CellItem.{cell_of};

use crate::cell_item::CellItem;
use crate::placed_run::PlacedRun;
use crate::preedit::Preedit;
use crate::splice::CELL_LIMIT;
use arrayvec::ArrayVec;
use chew_phrasing::Choice;
use chew_syllable::{Run, Syllable};

/// The most runs of a buffer: every other cell parts two.
pub const RUNS_LIMIT: usize = 20;

impl Preedit {
    /// The runs, from left to right.
    pub fn runs(&self) -> ArrayVec<PlacedRun, RUNS_LIMIT>
        ensures { result.items ≡ runs_of self.now.cells }
    {
        runs_of(self.cells.as_slice())
    }

    /// The run that has the cell at a place; `None` where there is no syllable.
    pub fn run_at(&self, place: u8) -> Option<PlacedRun>
        ensures { result ≡ run_at self.now.cells place }
    {
        let runs = self.runs();
        let run = run_with(runs.as_slice(), place)?;
        Some(run.copy())
    }

    /// The breaks inside a run, by their places in the run.
    pub fn breaks_in(&self, run: &PlacedRun) -> ArrayVec<u8, CELL_LIMIT>
        ensures { result.items ≡ breaks_in run.now self.now.breaks }
    {
        breaks_in(self.breaks.as_slice(), run)
    }

    /// The choices in a run, by their places in the run.
    pub fn choices_in(&self, run: &PlacedRun) -> ArrayVec<Choice, CELL_LIMIT>
        ensures { result.items ≡ choices_in run.now self.now.choices }
    {
        choices_in(self.choices.as_slice(), run)
    }
}

/// The runs of the cells, from left to right.
fn runs_of(cells: &[CellItem]) -> ArrayVec<PlacedRun, RUNS_LIMIT>
    requires { length cells.now ≤ 39 }
    ensures { result.items ≡ runs_of (map cell_of cells.now) }
{
    let mut runs = ArrayVec::new();
    let mut place = 0;
    while place < cells.len() {
        let codes = leading_run(&cells[place..]);
        let len = codes.list().len();
        if len > 0 {
            runs.push(PlacedRun {
                start: place as u8,
                codes,
            });
        }
        place += len + 1;
    }
    runs
}

/// The run of these that has the cell at a place.
fn run_with(runs: &[PlacedRun], place: u8) -> Option<&PlacedRun>
    ensures { option_copied result ≡ find (λ run. is_in_run run place) runs.now }
{
    runs.iter().find(|run| run.has(place))
}

/// The syllables that the cells begin with.
fn leading_run(cells: &[CellItem]) -> Run
    requires { length cells.now ≤ 39 }
    ensures { result ≡ leading_codes (map cell_of cells.now) }
{
    let syllables = leading_syllables(cells);
    Run::of_few(syllables.as_slice())
}

/// The same, as a list.
fn leading_syllables(cells: &[CellItem]) -> ArrayVec<Syllable, CELL_LIMIT>
    requires { length cells.now ≤ 39 }
    ensures { result.items ≡ leading_codes (map cell_of cells.now) }
{
    let mut syllables = ArrayVec::new();
    for cell in cells {
        match cell {
            CellItem::Sound(syllable) => syllables.push(*syllable),
            CellItem::Symbol(_) => return syllables,
        }
    }
    syllables
}

/// The breaks inside a run, by their places in the run.
fn breaks_in(breaks: &[u8], run: &PlacedRun) -> ArrayVec<u8, CELL_LIMIT>
    requires { length breaks.now ≤ 39 }
    ensures { result.items ≡ breaks_in run.now breaks.now }
{
    let mut inside = ArrayVec::new();
    for place in breaks {
        if run.has_inside(*place) {
            inside.push(*place - run.start);
        }
    }
    inside
}

/// The choices in a run, by their places in the run.
fn choices_in(choices: &[Choice], run: &PlacedRun) -> ArrayVec<Choice, CELL_LIMIT>
    requires { length choices.now ≤ 39 }
    ensures { result.items ≡ choices_in run.now choices.now }
{
    let mut inside = ArrayVec::new();
    for choice in choices {
        if run.has(choice.start) {
            inside.push(choice_back(choice, run.start));
        }
    }
    inside
}

/// The choice so many cells further back.
fn choice_back(choice: &Choice, cells: u8) -> Choice
    requires { cells ≤ choice.now.start }
    ensures { result ≡ choice_back cells choice.now }
{
    Choice {
        start: choice.start - cells,
        phrase: choice.phrase.copy(),
        freq: choice.freq,
    }
}
