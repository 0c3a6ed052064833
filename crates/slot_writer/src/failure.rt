ghost use Rattle.std.specs.Prelude.{⊤};

use chew_syllable::NoMemory;
use std::alloc::{AllocError, AllocFailed};
use std::fmt;
use std::io::Error;

/// Why it ends before it was killed.
#[derive(Debug, Drop)]
pub(crate) enum Failure {
    /// A file can't be opened, or a line can't be printed.
    Outside,
    /// A slot is refused, or can't be read.
    Refused,
    /// The slots hold another map than one that is saved here, or the map isn't whole.
    OtherMap,
    /// A map isn't saved.
    NotSaved,
    /// Memory was wanting.
    NoMemory,
}

impl fmt::Display for Failure {
    fn fmt<W: fmt::Write>(&self, f: &mut fmt::Formatter<W>) -> fmt::Result {
        f.write_str(match self {
            Failure::Outside => "a file or the output fails",
            Failure::Refused => "a slot is refused",
            Failure::OtherMap => "the slots hold another map",
            Failure::NotSaved => "a map is not saved",
            Failure::NoMemory => "memory is wanting",
        })
    }
}

impl From<Error> for Failure {
    ghost from_gives = { λ _ _. ⊤ };

    fn from(_error: Error) -> Failure {
        Failure::Outside
    }
}

impl From<NoMemory> for Failure {
    ghost from_gives = { λ _ _. ⊤ };

    fn from(_error: NoMemory) -> Failure {
        Failure::NoMemory
    }
}

impl From<AllocError> for Failure {
    ghost from_gives = { λ _ _. ⊤ };

    fn from(_error: AllocError) -> Failure {
        Failure::NoMemory
    }
}

impl<T: Drop> From<AllocFailed<T>> for Failure {
    ghost from_gives = { λ _ _. ⊤ };

    fn from(_error: AllocFailed<T>) -> Failure {
        Failure::NoMemory
    }
}
