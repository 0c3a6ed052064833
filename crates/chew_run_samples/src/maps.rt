//! The user's map that is found on a disk.

ghost use Rattle.std.specs.Prelude.{IfOk};
ghost use Rattle.chew_run_samples.specs.CrashFinds.{IsLeft};

use chew_outside::MemDisk;
use chew_slots::{Found, SlotFault, recover};
use chew_syllable::NoMemory;
use std::alloc::Global;

/// What is found on what a crash now may leave of a disk, by this pick; 0 picks what is read.
pub fn found_after(alloc: Global, disk: &MemDisk, pick: u64) -> Result<Found, SlotFault>
    ensures { IfOk result (IsLeft pick disk.now) }
{
    match disk.crashed(pick) {
        Ok(mut image) => recover(alloc, &mut image),
        Err(NoMemory) => Err(SlotFault::NoMemory),
    }
}
