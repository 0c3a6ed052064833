ghost use Rattle.std.specs.Prelude.{⊤};

use chew_slots::SlotFault;
use chew_syllable::NoMemory;
use hex::FromHexError;
use std::alloc::{AllocError, AllocFailed};
use std::fmt;
use std::io::Error;

/// Why a file of cases doesn't hold.
#[derive(Drop)]
pub(crate) enum Failure {
    /// The file can't be read, or a line can't be printed.
    Outside,
    /// It is no file of cases.
    NoCases(toml::de::Error),
    /// A case names a slot that the file doesn't have, or one that isn't written in hex digits.
    NoSlot,
    /// A case lacks something that it needs, or asks for what it can't have.
    NoCase,
    /// A case has a value of another kind than it may have, or a key that is none of a case.
    OtherKind,
    OtherKey,
    /// A wait at the gate ran out, or did not where the case says so.
    OtherWait,
    /// The slots that a run left are refused.
    Refused,
    /// Memory was wanting.
    NoMemory,
    /// Something else came of a run than what was wanted.
    Other {
        what: &'static str,
        wanted: String,
        found: String,
    },
}

impl fmt::Display for Failure {
    fn fmt<W: fmt::Write>(&self, f: &mut fmt::Formatter<W>) -> fmt::Result {
        match self {
            Failure::Outside => f.write_str("a file or the output fails"),
            Failure::NoCases(error) => fmt::Display::fmt(error, f),
            Failure::NoSlot => f.write_str("there is no such slot"),
            Failure::NoCase => f.write_str("something is missing"),
            Failure::OtherKind => f.write_str("a value is of another kind"),
            Failure::OtherKey => f.write_str("a key is none of a case"),
            Failure::OtherWait => f.write_str("a wait ends otherwise"),
            Failure::Refused => f.write_str("the slots that it leaves are refused"),
            Failure::NoMemory => f.write_str("memory is wanting"),
            Failure::Other {
                what,
                wanted,
                found,
            } => write!(f, "other {what}\nwanted:\n{wanted}\nfound:\n{found}"),
        }
    }
}

impl From<Error> for Failure {
    ghost from_gives = { λ _ _. ⊤ };

    fn from(_error: Error) -> Failure {
        Failure::Outside
    }
}

impl From<toml::de::Error> for Failure {
    ghost from_gives = { λ _ _. ⊤ };

    fn from(error: toml::de::Error) -> Failure {
        Failure::NoCases(error)
    }
}

impl From<FromHexError> for Failure {
    ghost from_gives = { λ _ _. ⊤ };

    fn from(_error: FromHexError) -> Failure {
        Failure::NoSlot
    }
}

impl From<SlotFault> for Failure {
    ghost from_gives = { λ _ _. ⊤ };

    fn from(_fault: SlotFault) -> Failure {
        Failure::Refused
    }
}

impl From<NoMemory> for Failure {
    ghost from_gives = { λ _ _. ⊤ };

    fn from(_error: NoMemory) -> Failure {
        Failure::NoMemory
    }
}

impl From<AllocError> for Failure {
    ghost from_gives = { λ _ _. ⊤ };

    fn from(_error: AllocError) -> Failure {
        Failure::NoMemory
    }
}

impl<T: Drop> From<AllocFailed<T>> for Failure {
    ghost from_gives = { λ _ _. ⊤ };

    fn from(_error: AllocFailed<T>) -> Failure {
        Failure::NoMemory
    }
}
