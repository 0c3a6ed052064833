//! A checkpoint by its three steps, and what a disk recovers to.

ghost use Rattle.std.specs.Prelude.{◌≡◌, ◌+◌, ◌-◌, ◌^◌, ◌<◌, Err, IfNone, IfOk, IfSome, IsTrue, OnErr, OnOk, length, true};
ghost use Rattle.chew_spec_outside.specs.Faults.{HasCause};
ghost use Rattle.chew_spec_slots.specs.Keep.{advanced, with_shut};
ghost use Rattle.chew_spec_slots.specs.Recovery.{recovered};
ghost use Rattle.chew_slots.specs.Answers.{TellsRefusal};
ghost use Rattle.chew_slots.specs.ReadOnly.{IsUntouched};
ghost use Rattle.chew_slot_samples.specs.Answers.{IsFine, IsOf, step_failed};

use crate::maps::{Learnt, image_of, is_found, life_of};
use chew_outside::Disk;
use chew_slots::{Keep, SlotFault, body_of, recover};
use chew_syllable::{NoMemory, USER_ROWS_LIMIT};
use chew_trie_read::Trie;
use std::alloc::Global;

/// Why a checkpoint isn't written.
#[derive(Clone, Copy, Debug, PartialEq, Eq)]
pub enum SaveFault {
    /// A call of the disk failed, in this step, 1 to 6.
    Step(u8),
    /// The last number is acknowledged.
    Spent,
    /// The map has more than 200,000 rows.
    TooMany,
    /// The bytes are no image.
    NoImage,
    /// Memory was wanting.
    NoMemory,
}

/// Writes a map with its life as the next checkpoint. Where the last number is acknowledged, where the map has more than
/// 200,000 rows, and where memory is wanting, no call of the disk is made.
pub fn save_map<D: Disk>(
    alloc: Global,
    keep: &mut Keep,
    disk: &mut D,
    map: &Trie,
    life: u64,
) -> Result<(), SaveFault>
    ensures told { D.told disk.new ≡ D.told disk.old }
    ensures ok { OnOk result (keep.new ≡ advanced (with_shut keep.old keep.old.target true)) }
    ensures err { OnErr result (keep.new.seq ≡ keep.old.seq) }
    ensures cause { HasCause (D.faults disk.old) (D.faults disk.new) (step_failed result) }
    ensures spent { keep.old.seq ≡ 2 ^ 64 - 1 → result ≡ Err SaveFault.Spent }
    ensures many { keep.old.seq < 2 ^ 64 - 1 → 200_000 < length map.now → result ≡ Err SaveFault.TooMany }
{
    let seq = keep.seq();
    if seq == u64::MAX {
        return Err(SaveFault::Spent);
    }
    if map.total() > USER_ROWS_LIMIT {
        return Err(SaveFault::TooMany);
    }
    let Ok(body) = body_of(alloc, seq + 1, life, map) else {
        return Err(SaveFault::NoMemory);
    };
    if let Err(fault) = keep.close_gate(disk) {
        return Err(SaveFault::Step(fault.step));
    }
    if let Err(fault) = keep.fill(disk, body.as_slice()) {
        return Err(SaveFault::Step(fault.step));
    }
    if let Err(fault) = keep.lift_gate(disk) {
        return Err(SaveFault::Step(fault.step));
    }
    Ok(())
}

/// The same for a map that the tests know.
pub fn save<D: Disk>(
    alloc: Global,
    keep: &mut Keep,
    disk: &mut D,
    learnt: Learnt,
) -> Result<(), SaveFault>
    ensures told { D.told disk.new ≡ D.told disk.old }
    ensures ok { OnOk result (keep.new ≡ advanced (with_shut keep.old keep.old.target true)) }
    ensures err { OnErr result (keep.new.seq ≡ keep.old.seq) }
    ensures cause { HasCause (D.faults disk.old) (D.faults disk.new) (step_failed result) }
{
    let Ok(image) = image_of(alloc, learnt) else {
        return Err(SaveFault::NoMemory);
    };
    let Ok(map) = Trie::of(image) else {
        return Err(SaveFault::NoImage);
    };
    save_map(alloc, keep, disk, &map, life_of(learnt))
}

/// Whether a disk recovers to this map, and not to a refusal.
pub fn recovers_to<D: Disk>(alloc: Global, disk: &mut D, learnt: Learnt) -> Result<bool, NoMemory>
    ensures told { D.told disk.new ≡ D.told disk.old }
    ensures recovers { D.told disk.old ≡ true
        → IfOk result (λ recovers. IsTrue recovers → IsOf learnt (recovered ((D.state disk.old).reads 0) ((D.state disk.old).reads 1))) }
    ensures untouched { D.told disk.old ≡ true → IsUntouched (D.state disk.old) (D.state disk.new) }
{
    match recover(alloc, disk) {
        Ok(found) => is_found(alloc, &found, learnt),
        Err(SlotFault::NoMemory) => Err(NoMemory),
        Err(_) => Ok(false),
    }
}

/// Why a disk is refused, if it is.
pub fn refusal<D: Disk>(alloc: Global, disk: &mut D) -> Option<SlotFault>
    ensures told { D.told disk.new ≡ D.told disk.old }
    ensures refused { D.told disk.old ≡ true
        → IfSome result (λ fault. TellsRefusal (recovered ((D.state disk.old).reads 0) ((D.state disk.old).reads 1)) fault) }
    ensures fine { D.told disk.old ≡ true → IfNone result (IsFine (recovered ((D.state disk.old).reads 0) ((D.state disk.old).reads 1))) }
    ensures untouched { D.told disk.old ≡ true → IsUntouched (D.state disk.old) (D.state disk.new) }
{
    match recover(alloc, disk) {
        Ok(_found) => None,
        Err(fault) => Some(fault),
    }
}
