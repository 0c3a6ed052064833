use chew_measuring::Failure;
use std::fmt;
use std::io::Print;
use std::time::{Clock, CpuClock, Duration};

/// The time that went by, and the processor time of all threads.
#[derive(Clone, Copy, Drop)]
pub(crate) struct Spent {
    by_clock: Duration,
    by_processors: Duration,
}

impl Spent {
    /// Up to now.
    pub(crate) fn now<R: Clock + CpuClock>(rt: &R) -> Result<Spent, Failure> {
        Ok(Spent {
            by_clock: rt.monotonic()?,
            by_processors: rt.process_cpu_time()?,
        })
    }

    /// From another time on.
    pub(crate) fn since(&self, start: &Spent) -> Spent {
        Spent {
            by_clock: self.by_clock.saturating_sub(start.by_clock),
            by_processors: self.by_processors.saturating_sub(start.by_processors),
        }
    }
}

/// Who made the calls.
#[derive(Clone, Copy, Drop)]
pub(crate) enum Who {
    /// One thread, of layers that nobody shares.
    Alone,
    /// So many contexts at once, of one shared dictionary.
    AtOnce(u32),
    /// The same while its keeper makes rounds, each call timed.
    Beside(u32),
}

impl fmt::Display for Who {
    fn fmt<W: fmt::Write>(&self, f: &mut fmt::Formatter<W>) -> fmt::Result {
        match self {
            Who::Alone => f.write_str("layers alone"),
            Who::AtOnce(contexts) => write!(f, "{contexts} at once"),
            Who::Beside(contexts) => write!(f, "{contexts} at once beside rounds"),
        }
    }
}

/// How many calls were answered, what they took, and how long the longest did if each was timed.
#[derive(Drop)]
pub(crate) struct Measured {
    pub(crate) answered: u64,
    pub(crate) spent: Spent,
    pub(crate) longest: Duration,
}

impl Measured {
    /// Prints how many calls were answered.
    pub(crate) fn print_count<R: Print>(&self, rt: &R, who: Who) -> Result<(), Failure> {
        println!(rt; "{who}: {} calls", self.answered)?;
        Ok(())
    }

    /// Prints what a call took.
    pub(crate) fn print<R: Print>(&self, rt: &R, who: Who) -> Result<(), Failure> {
        let calls = self.answered;
        let count = u128::from(calls);
        let by_clock = self.spent.by_clock.as_nanos();
        let by_processors = self.spent.by_processors.as_nanos();
        let each = by_clock.checked_div(count).unwrap_or(0);
        let processors = by_processors.checked_div(count).unwrap_or(0);
        let rate = (count * 1_000_000_000).checked_div(by_clock).unwrap_or(0);
        println!(rt;
            "{who}: {calls} calls, {each} ns each, {rate} a second, {processors} ns of processor time each"
        )?;
        if self.longest != Duration::ZERO {
            println!(rt;
                "{who}: the longest call took {} ns",
                self.longest.as_nanos()
            )?;
        }
        Ok(())
    }
}
