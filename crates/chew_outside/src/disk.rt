ghost use Rattle.std.specs.Prelude.{◌≡◌, ℕ, ◌<◌, ◌≤◌, Bool, true, length, is_err, IfOk};
ghost use Rattle.chew_spec_disk.specs.Disk.{DiskState, IsDisk, Stays};
ghost use Rattle.chew_spec_disk.specs.Reads.{ReadsAt};
ghost use Rattle.chew_spec_disk.specs.Sync.{SyncAnswers};
ghost use Rattle.chew_spec_disk.specs.Write.{WriteAnswers};
ghost use Rattle.chew_spec_outside.specs.Faults.{HasCause};

use crate::Failed;

/// Two slots of bytes, 0 and 1, that outlive the program. A disk may tell its content, and what a
/// crash at each moment so far might have left of it; of one that doesn't nothing is known but its
/// count of faults. The slots' lists that a crash leaves are chosen apart.
pub trait Disk: Send {
    ghost told: { Self → Bool };

    ghost state: { Self → DiskState };

    ghost faults: { Self → ℕ };

    /// The length of a slot in bytes.
    fn length(&mut self, slot: u8) -> Result<u64, Failed>
        requires { slot < 2 }
        ensures told { told self.new ≡ told self.old }
        ensures is_disk { told self.old ≡ true → IsDisk (state self.new) }
        ensures ok { told self.old ≡ true → IfOk result (λ n. n ≡ length ((state self.old).reads slot)) }
        ensures stays { told self.old ≡ true → Stays (state self.old) (state self.new) }
        ensures cause { HasCause (faults self.old) (faults self.new) (is_err result) };

    /// Reads the bytes of a slot from a place on, up to the slot's end or that of the buffer, and
    /// answers how many. A read that failed may have left anything in the buffer.
    fn read_at(&mut self, slot: u8, at: u64, into: &mut [u8]) -> Result<usize, Failed>
        requires { slot < 2 }
        ensures told { told self.new ≡ told self.old }
        ensures is_disk { told self.old ≡ true → IsDisk (state self.new) }
        ensures fits { IfOk result (λ n. n ≤ length into.old) }
        ensures ok { told self.old ≡ true → IfOk result (λ n. ReadsAt ((state self.old).reads slot) at into.old into.new n) }
        ensures stays { told self.old ≡ true → Stays (state self.old) (state self.new) }
        ensures cause { HasCause (faults self.old) (faults self.new) (is_err result) };

    /// Writes all of the bytes to a slot from a place on. Until a sync they may be lost or torn by a
    /// crash; where the write failed it may have been made in part.
    fn write_at(&mut self, slot: u8, at: u64, bytes: &[u8]) -> Result<(), Failed>
        requires { slot < 2 }
        ensures told { told self.new ≡ told self.old }
        ensures is_disk { told self.old ≡ true → IsDisk (state self.new) }
        ensures answer { told self.old ≡ true → WriteAnswers slot at bytes.now (state self.old) (state self.new) result }
        ensures cause { HasCause (faults self.old) (faults self.new) (is_err result) };

    /// Waits until all that was written to a slot can't be lost by a crash.
    fn sync(&mut self, slot: u8) -> Result<(), Failed>
        requires { slot < 2 }
        ensures told { told self.new ≡ told self.old }
        ensures is_disk { told self.old ≡ true → IsDisk (state self.new) }
        ensures answer { told self.old ≡ true → SyncAnswers slot (state self.old) (state self.new) result }
        ensures cause { HasCause (faults self.old) (faults self.new) (is_err result) };
}
