use chew_measuring::Failure;
use std::io::Print;
use std::time::Duration;

/// The numbers of cells whose keys are told apart.
const TOLD: [usize; 5] = [5, 10, 11, 20, 39];

/// Times of some keys.
#[derive(Clone, Copy, Drop)]
struct Times {
    count: u64,
    total: Duration,
    greatest: Duration,
}

impl Times {
    /// Those of no keys.
    fn none() -> Times {
        Times {
            count: 0,
            total: Duration::ZERO,
            greatest: Duration::ZERO,
        }
    }

    /// With one key more.
    fn with(self, time: Duration) -> Times {
        Times {
            count: self.count.saturating_add(1),
            total: self.total.saturating_add(time),
            greatest: self.greatest.max(time),
        }
    }

    /// The average, in nanoseconds.
    fn average(&self) -> u128 {
        self.total
            .as_nanos()
            .checked_div(u128::from(self.count))
            .unwrap_or(0)
    }
}

/// What keys cost.
#[derive(Drop)]
pub(crate) struct Figures {
    keys: u64,
    commits: Times,
    syllables: Times,
    by_cells: [Times; 40],
}

impl Figures {
    /// Those of no keys.
    pub(crate) fn none() -> Figures {
        Figures {
            keys: 0,
            commits: Times::none(),
            syllables: Times::none(),
            by_cells: [Times::none(); 40],
        }
    }

    /// Counts a key.
    pub(crate) fn count_key(&mut self) {
        self.keys = self.keys.saturating_add(1);
    }

    /// Adds the time of a key that ended the syllable of the last of so many cells.
    pub(crate) fn add_syllable(&mut self, cells: usize, time: Duration) {
        self.syllables = self.syllables.with(time);
        if cells < 40 {
            self.by_cells[cells] = self.by_cells[cells].with(time);
        }
    }

    /// Adds the time in which a whole line is learnt.
    pub(crate) fn add_commit(&mut self, time: Duration) {
        self.commits = self.commits.with(time);
    }

    /// Prints them, in microseconds of processor time.
    pub(crate) fn print<R: Print>(&self, rt: &R) -> Result<(), Failure> {
        let whole = self.syllables.total.saturating_add(self.commits.total);
        let average = whole
            .as_nanos()
            .checked_div(u128::from(self.keys))
            .unwrap_or(0);
        println!(rt;
            "{} keys in {} us, {average} ns a key",
            self.keys,
            whole.as_micros()
        )?;
        print_times(rt, "syllables", &self.syllables)?;
        print_times(rt, "lines learnt", &self.commits)?;
        for cells in TOLD {
            print_cells(rt, cells, &self.by_cells)?;
        }
        Ok(())
    }
}

/// Prints the times of the keys that ended the syllable of the last of so many cells.
fn print_cells<R: Print>(rt: &R, cells: usize, times: &[Times]) -> Result<(), Failure> {
    if let Some(times) = times.get(cells) {
        print!(rt; "{cells} cells: ")?;
        print_times(rt, "keys", times)?;
    }
    Ok(())
}

/// Prints the times of some keys.
fn print_times<R: Print>(rt: &R, what: &str, times: &Times) -> Result<(), Failure> {
    println!(rt;
        "{} {what}, {} ns on average, {} ns at most",
        times.count,
        times.average(),
        times.greatest.as_nanos()
    )?;
    Ok(())
}
