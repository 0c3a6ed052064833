ghost use Rattle.std.specs.Prelude.{⊤};

use chew_syllable::NoMemory;
use std::alloc::{AllocError, AllocFailed};
use std::fmt;
use std::io::Error;

/// What is wrong.
#[derive(Debug, Drop)]
pub(crate) enum Failure {
    /// A line can't be printed.
    Outside,
    /// Memory was wanting.
    NoMemory,
    /// A call of the test is none.
    NoCall,
    /// A context is missing, or has the number of another.
    Passes,
    /// The journal has a call that may not be made there, or one of nobody.
    Journal,
    /// A kind of reply was told to nobody.
    Kinds,
    /// A number was told something else than the plain map replies.
    OtherReply,
    /// The layers hold another map.
    OtherMap,
    /// The layers reply otherwise from then on.
    OtherWay,
}

impl fmt::Display for Failure {
    fn fmt<W: fmt::Write>(&self, f: &mut fmt::Formatter<W>) -> fmt::Result {
        f.write_str(match self {
            Failure::Outside => "the output fails",
            Failure::NoMemory => "memory is wanting",
            Failure::NoCall => "a call of the test is none",
            Failure::Passes => "a context is missing, or has the number of another",
            Failure::Journal => "the journal has a call that may not be made there",
            Failure::Kinds => "a kind of reply was told to nobody",
            Failure::OtherReply => "a context or the keeper was told something else",
            Failure::OtherMap => "the layers hold another map",
            Failure::OtherWay => "the layers go on otherwise",
        })
    }
}

impl From<Error> for Failure {
    ghost from_gives = { λ _ _. ⊤ };

    fn from(_error: Error) -> Failure {
        Failure::Outside
    }
}

impl From<NoMemory> for Failure {
    ghost from_gives = { λ _ _. ⊤ };

    fn from(_error: NoMemory) -> Failure {
        Failure::NoMemory
    }
}

impl From<AllocError> for Failure {
    ghost from_gives = { λ _ _. ⊤ };

    fn from(_error: AllocError) -> Failure {
        Failure::NoMemory
    }
}

impl<T: Drop> From<AllocFailed<T>> for Failure {
    ghost from_gives = { λ _ _. ⊤ };

    fn from(_error: AllocFailed<T>) -> Failure {
        Failure::NoMemory
    }
}
