//! What the programs that measure share: why one of them ended without a figure.
#![tactic(auto)]

ghost use Rattle.std.specs.Prelude.{◌≡◌};
ghost use Rattle.chew_measuring.specs.declared.Failure.TheVariants as failures;

use chew_syllable::NoMemory;
use std::alloc::{AllocError, AllocFailed};
use std::fmt;
use std::io::Error;

/// Why nothing was measured.
#[derive(Debug, Drop)]
pub enum Failure {
    /// A file can't be read, a line can't be printed, or there is no clock.
    Outside,
    /// What the words name to be measured has not its form.
    Form,
    /// Memory was wanting.
    NoMemory,
}

impl fmt::Display for Failure {
    fn fmt<W: fmt::Write>(&self, f: &mut fmt::Formatter<W>) -> fmt::Result {
        f.write_str(match self {
            Failure::Outside => "a file, the output or the clock fails",
            Failure::Form => "what is to be measured is refused",
            Failure::NoMemory => "memory is wanting",
        })
    }
}

impl From<Error> for Failure {
    ghost from_gives = { λ _ failure. failure ≡ failures.Outside };

    fn from(_error: Error) -> Failure {
        Failure::Outside
    }
}

impl From<NoMemory> for Failure {
    ghost from_gives = { λ _ failure. failure ≡ failures.NoMemory };

    fn from(_refused: NoMemory) -> Failure {
        Failure::NoMemory
    }
}

impl From<AllocError> for Failure {
    ghost from_gives = { λ _ failure. failure ≡ failures.NoMemory };

    fn from(_refused: AllocError) -> Failure {
        Failure::NoMemory
    }
}

impl<T: Drop> From<AllocFailed<T>> for Failure {
    ghost from_gives = { λ _ failure. failure ≡ failures.NoMemory };

    fn from(_refused: AllocFailed<T>) -> Failure {
        Failure::NoMemory
    }
}
