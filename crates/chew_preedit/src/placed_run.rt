ghost use Rattle.std.specs.Prelude.{◌≡◌, [], nat_lt, ◌&&◌};
ghost use Rattle.chew_spec_preedit.specs.PlacedRun.{is_in_run, run_end};

use chew_syllable::Run;
use std::marker::Model;

/// A stretch of syllables that nothing parts, and the place in the buffer of its first cell.
#[derive(Debug, Drop)]
pub struct PlacedRun {
    /// 0 to 38.
    pub start: u8,
    /// Its syllables, at least one.
    pub codes: Run,
}

impl Model for PlacedRun {
    ghost use Rattle.chew_spec_preedit.specs.PlacedRun as spec;

    ghost Value = { spec.PlacedRun };

    ghost view = { λ run. record { start = run.start; codes = run.codes } };
}

impl PlacedRun {
    /// The place behind its last cell.
    pub fn end(&self) -> usize
        ensures { result ≡ run_end self.now }
    {
        usize::from(self.start) + self.codes.list().len()
    }

    /// Whether the place is one of its cells.
    pub fn has(&self, place: u8) -> bool
        ensures { result ≡ is_in_run self.now place }
    {
        self.start <= place && usize::from(place) < self.end()
    }

    /// Whether a place is strictly inside it.
    pub(crate) fn has_inside(&self, place: u8) -> bool
        ensures { result ≡ (nat_lt self.now.start place && nat_lt place (run_end self.now)) }
    {
        self.start < place && usize::from(place) < self.end()
    }

    /// The same run once more. It takes no memory.
    pub fn copy(&self) -> PlacedRun
        ensures { result ≡ self.now }
    {
        PlacedRun {
            start: self.start,
            codes: self.codes.copy(),
        }
    }
}

impl Default for PlacedRun {
    ghost is_default = { λ run. run ≡ record { start = 0; codes = [] } };

    /// No syllables, since something has to fill unused places.
    fn default() -> Self {
        PlacedRun {
            start: 0,
            codes: no_syllables(),
        }
    }
}

/// A run of no syllables.
fn no_syllables() -> Run
    ensures { result ≡ [] }
{
    Run::of_few(&[])
}
