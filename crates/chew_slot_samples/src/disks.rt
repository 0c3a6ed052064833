//! Disks in memory, and what disks hold.

ghost use Rattle.std.specs.Prelude.{◌≡◌, ◌<◌, ◌&&◌, ℕ, [], IfErr, IfOk, None, bytes_eq, false, true};
ghost use Rattle.chew_spec_outside.specs.Faults.{HasCause};
ghost use Rattle.chew_spec_disk.specs.Memory.{new_disk};
ghost use Rattle.chew_slots.specs.Answers.{disk_failed};

use chew_outside::{Disk, Fails, MemDisk};
use chew_slots::SlotFault;
use chew_syllable::NoMemory;
use std::alloc::Global;

/// A disk with these slots that never fails.
pub fn disk_of(alloc: Global, zero: &[u8], one: &[u8]) -> Result<MemDisk, NoMemory>
    ensures { IfOk result (λ disk. disk ≡ new_disk zero.now one.now (record { at = []; from = None })) }
{
    failing(alloc, zero, one, Fails::never(alloc))
}

/// A disk with these slots, of which some calls fail.
pub fn failing(alloc: Global, zero: &[u8], one: &[u8], fails: Fails) -> Result<MemDisk, NoMemory>
    ensures { IfOk result (λ disk. disk ≡ new_disk zero.now one.now fails) }
{
    let zero = Vec::from_slice(alloc, zero)?;
    let one = Vec::from_slice(alloc, one)?;
    Ok(MemDisk::of([zero, one], fails))
}

/// The bytes of a slot. The fault is the disk's, or want of memory.
pub fn bytes_of<D: Disk>(alloc: Global, disk: &mut D, slot: u8) -> Result<Vec<u8>, SlotFault>
    requires { slot < 2 }
    ensures told { D.told disk.new ≡ D.told disk.old }
    ensures reads { D.told disk.old ≡ true → IfOk result (λ bytes. bytes.items ≡ (D.state disk.old).reads slot) }
    ensures same { D.told disk.old ≡ true → (each : ℕ) → (D.state disk.new).reads each ≡ (D.state disk.old).reads each }
    ensures cause { HasCause (D.faults disk.old) (D.faults disk.new) (disk_failed result) }
    ensures memory { disk_failed result ≡ false → IfErr result (λ fault. fault ≡ SlotFault.NoMemory) }
{
    let Ok(len) = disk.length(slot) else {
        return Err(SlotFault::DiskFault);
    };
    let Ok(mut bytes) = vec![in alloc; 0u8; len as usize] else {
        return Err(SlotFault::NoMemory);
    };
    match disk.read_at(slot, 0, bytes.as_mut_slice()) {
        Ok(count) => {
            bytes.truncate(count);
            Ok(bytes)
        }
        Err(_) => Err(SlotFault::DiskFault),
    }
}

/// Whether the slots have these bytes.
pub fn holds<D: Disk>(
    alloc: Global,
    disk: &mut D,
    zero: &[u8],
    one: &[u8],
) -> Result<bool, SlotFault>
    ensures told { D.told disk.new ≡ D.told disk.old }
    ensures held { D.told disk.old ≡ true
        → IfOk result (λ held. held ≡ (bytes_eq ((D.state disk.old).reads 0) zero.now && bytes_eq ((D.state disk.old).reads 1) one.now)) }
    ensures same { D.told disk.old ≡ true → (each : ℕ) → (D.state disk.new).reads each ≡ (D.state disk.old).reads each }
    ensures cause { HasCause (D.faults disk.old) (D.faults disk.new) (disk_failed result) }
{
    let is_zero = has(alloc, disk, 0, zero)?;
    let is_one = has(alloc, disk, 1, one)?;
    Ok(is_zero && is_one)
}

// Whether a slot has these bytes.
fn has<D: Disk>(alloc: Global, disk: &mut D, slot: u8, bytes: &[u8]) -> Result<bool, SlotFault>
    requires { slot < 2 }
    ensures told { D.told disk.new ≡ D.told disk.old }
    ensures held { D.told disk.old ≡ true → IfOk result (λ held. held ≡ bytes_eq ((D.state disk.old).reads slot) bytes.now) }
    ensures same { D.told disk.old ≡ true → (each : ℕ) → (D.state disk.new).reads each ≡ (D.state disk.old).reads each }
    ensures cause { HasCause (D.faults disk.old) (D.faults disk.new) (disk_failed result) }
{
    let held = bytes_of(alloc, disk, slot)?;
    Ok(held.as_slice() == bytes)
}
