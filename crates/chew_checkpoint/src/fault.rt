ghost use Rattle.std.specs.Prelude.{◌≡◌};
ghost use Rattle.chew_checkpoint.specs.declared.fault.WriteFault.TheVariants as write;

use chew_slots::StepFault;
use chew_syllable::NoMemory;

/// Why a checkpoint was not written.
#[derive(Clone, Copy, Debug, PartialEq, Eq)]
pub enum WriteFault {
    /// A call of the disk failed: 1 the write of the shut gate, 2 its sync, 3 the write of the body, 4 its sync, 5 the write
    /// of the open gate, 6 its sync.
    DiskFault { step: u8 },
    /// Memory was wanting, and no call of the disk was made.
    NoMemory,
    /// The acknowledged checkpoint has the last number, and no call of the disk was made.
    SeqSpent { seq: u64 },
}

impl From<StepFault> for WriteFault {
    ghost from_gives = { λ fault made. made ≡ write.DiskFault fault.step };

    fn from(fault: StepFault) -> WriteFault {
        WriteFault::DiskFault { step: fault.step }
    }
}

impl From<NoMemory> for WriteFault {
    ghost from_gives = { λ _ made. made ≡ write.NoMemory };

    fn from(_fault: NoMemory) -> WriteFault {
        WriteFault::NoMemory
    }
}
