ghost use Rattle.std.specs.Prelude.{◌≡◌};
ghost use Rattle.chew_checkpoint.specs.Answers.{round_for};

use crate::fault::WriteFault;

/// What a round answers.
#[derive(Clone, Copy, Debug, PartialEq, Eq)]
pub enum Round {
    /// The map after so many calls was saved, and is the dictionary's new base.
    Saved(u64),
    /// A call of the disk failed, at this step of the writing.
    DiskFault { step: u8 },
    /// Memory was wanting.
    NoMemory,
    /// The acknowledged checkpoint has the last number, and nothing was done.
    SeqSpent { seq: u64 },
}

impl Default for Round {
    ghost use Rattle.chew_checkpoint.specs.declared.round.Round.TheVariants as rounds;

    ghost is_default = { λ round. round ≡ rounds.NoMemory };

    /// A round that saved nothing, since some round has to fill unused places.
    fn default() -> Self {
        Round::NoMemory
    }
}

impl From<WriteFault> for Round {
    ghost from_gives = { λ fault made. made ≡ round_for fault };

    fn from(fault: WriteFault) -> Round {
        match fault {
            WriteFault::DiskFault { step } => Round::DiskFault { step },
            WriteFault::NoMemory => Round::NoMemory,
            WriteFault::SeqSpent { seq } => Round::SeqSpent { seq },
        }
    }
}
