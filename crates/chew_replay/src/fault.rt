ghost use Rattle.std.specs.Prelude.{⊤};

use chew_syllable::NoMemory;
use std::alloc::AllocError;

/// Why a journal is not read to its end.
#[derive(Clone, Copy, Debug, PartialEq, Eq)]
pub enum ReplayFault {
    /// A context makes other calls than stand in the journal, or one stands there that it may not make.
    Differs,
    /// Memory was wanting.
    NoMemory,
}

impl From<NoMemory> for ReplayFault {
    ghost from_gives = { λ _ _. ⊤ };

    fn from(_refused: NoMemory) -> Self {
        ReplayFault::NoMemory
    }
}

impl From<AllocError> for ReplayFault {
    ghost from_gives = { λ _ _. ⊤ };

    fn from(_error: AllocError) -> Self {
        ReplayFault::NoMemory
    }
}
