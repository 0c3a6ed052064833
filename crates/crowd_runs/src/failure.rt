ghost use Rattle.std.specs.Prelude.{⊤};

use chew_replay::ReplayFault;
use chew_slots::SlotFault;
use chew_syllable::NoMemory;
use std::alloc::{AllocError, AllocFailed};
use std::fmt;
use std::io::Error;

/// Why a run is not what its journal says.
#[derive(Debug, Drop)]
pub(crate) enum Failure {
    /// A line can't be printed.
    Outside,
    /// The journal doesn't tell what a context typed, or the run printed other lines than it has by it.
    OtherLines,
    /// A round answered something else than that it was saved or that the disk failed.
    OtherRounds,
    /// The run ended with another status, or with other rounds beside its contexts.
    OtherEnd,
    /// What a crash left is no map after a front of the journal that is as long as the last one that was saved.
    NoFront,
    /// The slots that a crash left are refused.
    Refused,
    /// Memory was wanting.
    NoMemory,
}

impl fmt::Display for Failure {
    fn fmt<W: fmt::Write>(&self, f: &mut fmt::Formatter<W>) -> fmt::Result {
        f.write_str(match self {
            Failure::Outside => "the output fails",
            Failure::OtherLines => "other lines were printed",
            Failure::OtherRounds => "a round was refused",
            Failure::OtherEnd => "the run ended otherwise",
            Failure::NoFront => "a crash left no front of the journal",
            Failure::Refused => "the slots that a crash left are refused",
            Failure::NoMemory => "memory is wanting",
        })
    }
}

impl From<Error> for Failure {
    ghost from_gives = { λ _ _. ⊤ };

    fn from(_error: Error) -> Failure {
        Failure::Outside
    }
}

impl From<ReplayFault> for Failure {
    ghost from_gives = { λ _ _. ⊤ };

    fn from(fault: ReplayFault) -> Failure {
        match fault {
            ReplayFault::Differs => Failure::OtherLines,
            ReplayFault::NoMemory => Failure::NoMemory,
        }
    }
}

impl From<SlotFault> for Failure {
    ghost from_gives = { λ _ _. ⊤ };

    fn from(fault: SlotFault) -> Failure {
        match fault {
            SlotFault::NoMemory => Failure::NoMemory,
            _ => Failure::Refused,
        }
    }
}

impl From<NoMemory> for Failure {
    ghost from_gives = { λ _ _. ⊤ };

    fn from(_error: NoMemory) -> Failure {
        Failure::NoMemory
    }
}

impl From<AllocError> for Failure {
    ghost from_gives = { λ _ _. ⊤ };

    fn from(_error: AllocError) -> Failure {
        Failure::NoMemory
    }
}

impl<T: Drop> From<AllocFailed<T>> for Failure {
    ghost from_gives = { λ _ _. ⊤ };

    fn from(_error: AllocFailed<T>) -> Failure {
        Failure::NoMemory
    }
}
