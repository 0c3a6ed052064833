//! One slot of a disk, read.

ghost use Rattle.std.specs.Prelude.{◌≡◌, ◌+◌, ◌≤◌, ◌<◌, ◌^◌, ℕ, Bool, IfErr, IfOk, List, [], false, length, true};
ghost use Rattle.chew_spec_outside.specs.Faults.{HasCause};
ghost use Rattle.chew_spec_disk.specs.Disk.{IsDisk};
ghost use Rattle.chew_spec_slots.specs.Recovery.{Recovery, refusal, unless_refused};
ghost use Rattle.chew_slots.specs.Answers.{AreTold, IsRead, ReadsAs, TellsRefusal, disk_failed};
ghost use Rattle.chew_slots.specs.Calls.{reading_calls};
ghost use Rattle.chew_slots.specs.ReadOnly.{IsUntouched};

use crate::SlotFault;
use crate::fields::is_surely_shut;
use crate::stored::{Stored, StoredFault, stored_in};
use chew_outside::Disk;
use std::alloc::Global;

/// The most bytes of a slot, 256 MiB.
pub const LENGTH_LIMIT: u64 = 1 << 28;

/// A slot that isn't refused: its checkpoint where its gate is open, and whether the gate is surely shut.
#[derive(Drop)]
pub(crate) struct SlotRead {
    pub(crate) stored: Option<Stored>,
    pub(crate) is_shut: bool,
}

/// Reads a slot and nothing else. An empty slot isn't read.
pub(crate) fn read_slot<D: Disk>(
    alloc: Global,
    disk: &mut D,
    slot: u8,
) -> Result<SlotRead, SlotFault>
    requires { slot < 2 }
    ensures told { D.told disk.new ≡ D.told disk.old }
    ensures is_disk { D.told disk.old ≡ true → IsDisk (D.state disk.new) }
    ensures untouched { D.told disk.old ≡ true → IsUntouched (D.state disk.old) (D.state disk.new) }
    ensures cause { HasCause (D.faults disk.old) (D.faults disk.new) (disk_failed result) }
    ensures calls { D.told disk.old ≡ true → (D.state disk.new).moment ≤ (D.state disk.old).moment + reading_calls ((D.state disk.old).reads slot) }
    ensures reads { (bytes : List ℕ) × AreTold (D.told disk.old) ((D.state disk.old).reads slot) bytes × ReadsAs slot bytes result }
{
    let bytes = read_bytes(alloc, disk, slot)?;
    slot_in(alloc, slot, bytes.as_slice())
}

// What these bytes are as a slot.
fn slot_in(alloc: Global, slot: u8, bytes: &[u8]) -> Result<SlotRead, SlotFault>
    requires { length bytes.now ≤ 2 ^ 28 }
    ensures reads { ReadsAs slot bytes.now result }
    ensures no_disk { disk_failed result ≡ false }
{
    match stored_in(alloc, bytes) {
        Ok(stored) => Ok(SlotRead {
            stored,
            is_shut: is_surely_shut(bytes),
        }),
        Err(StoredFault::Damaged { place }) => Err(SlotFault::Damaged { slot, place }),
        Err(StoredFault::NoMemory) => Err(SlotFault::NoMemory),
    }
}

// The bytes of a slot that isn't too large.
#[tactic(auto, using(crate::proofs::Moments::stays_calls))]
fn read_bytes<D: Disk>(alloc: Global, disk: &mut D, slot: u8) -> Result<Vec<u8>, SlotFault>
    requires { slot < 2 }
    ensures told { D.told disk.new ≡ D.told disk.old }
    ensures is_disk { D.told disk.old ≡ true → IsDisk (D.state disk.new) }
    ensures untouched { D.told disk.old ≡ true → IsUntouched (D.state disk.old) (D.state disk.new) }
    ensures cause { HasCause (D.faults disk.old) (D.faults disk.new) (disk_failed result) }
    ensures calls { D.told disk.old ≡ true → (D.state disk.new).moment ≤ (D.state disk.old).moment + reading_calls ((D.state disk.old).reads slot) }
    ensures bytes { IfOk result (λ bytes. AreTold (D.told disk.old) ((D.state disk.old).reads slot) bytes.items) }
    ensures fits { IfOk result (λ bytes. length bytes.items ≤ 2 ^ 28) }
    ensures refused { IfErr result (λ fault. (bytes : List ℕ) × AreTold (D.told disk.old) ((D.state disk.old).reads slot) bytes
        × ((behind : Recovery) → TellsRefusal (unless_refused (refusal slot bytes) behind) fault)) }
{
    let len = match disk.length(slot) {
        Ok(len) => len,
        Err(_) => return Err(SlotFault::DiskFault),
    };
    if len > LENGTH_LIMIT {
        return Err(SlotFault::TooLarge { slot, len });
    }
    read_so_many(alloc, disk, slot, len as usize)
}

// The bytes of a slot of this length. An empty slot isn't read.
#[tactic(auto, using(crate::proofs::Moments::stays_calls))]
fn read_so_many<D: Disk>(
    alloc: Global,
    disk: &mut D,
    slot: u8,
    len: usize,
) -> Result<Vec<u8>, SlotFault>
    requires slot { slot < 2 }
    requires fits { len ≤ 2 ^ 28 }
    ensures told { D.told disk.new ≡ D.told disk.old }
    ensures untouched { D.told disk.old ≡ true → IsUntouched (D.state disk.old) (D.state disk.new) }
    ensures is_disk { D.told disk.old ≡ true → IsDisk (D.state disk.old) → IsDisk (D.state disk.new) }
    ensures cause { HasCause (D.faults disk.old) (D.faults disk.new) (disk_failed result) }
    ensures calls { D.told disk.old ≡ true → (D.state disk.new).moment ≤ (D.state disk.old).moment + 1 }
    ensures empty { D.told disk.old ≡ true → len ≡ 0 → (D.state disk.new).moment ≡ (D.state disk.old).moment }
    ensures bytes { IfOk result (λ bytes. len ≡ length ((D.state disk.old).reads slot)
        → AreTold (D.told disk.old) ((D.state disk.old).reads slot) bytes.items) }
    ensures fits { IfOk result (λ bytes. length bytes.items ≤ 2 ^ 28) }
    ensures fault { IfErr result (λ fault. (recovery : Recovery) → TellsRefusal recovery fault) }
{
    let mut bytes = match vec![in alloc; 0u8; len] {
        Ok(bytes) => bytes,
        Err(_) => return Err(SlotFault::NoMemory),
    };
    if len == 0 {
        return Ok(bytes);
    }
    match disk.read_at(slot, 0, bytes.as_mut_slice()) {
        Ok(count) => {
            bytes.truncate(count);
            Ok(bytes)
        }
        Err(_) => Err(SlotFault::DiskFault),
    }
}
