ghost use Rattle.std.specs.Prelude.{◌≡◌, ◌≢◌, ◌+◌, ◌<◌, ◌≤◌, ℕ, Bool, IfErr, IfOk, List, [], None, Option, Some, true};
ghost use Rattle.chew_spec_outside.specs.Faults.{HasCause};
ghost use Rattle.chew_spec_disk.specs.Disk.{IsDisk};
ghost use Rattle.chew_spec_disk.specs.Sync.{IsSettled};
ghost use Rattle.chew_spec_slots.specs.Fits.{Fits};
ghost use Rattle.chew_spec_slots.specs.Keep.{acknowledged_state, found_keep, keep_for, left_state};
ghost use Rattle.chew_spec_slots.specs.Recovery.{checkpoint_of, newest, recovered, refusal};
ghost use Rattle.chew_slots.specs.Answers.{Answers, AreTold, disk_failed};
ghost use Rattle.chew_slots.specs.Calls.{reading_calls};
ghost use Rattle.chew_slots.specs.Contents.{reading_of};
ghost use Rattle.chew_slots.specs.ReadOnly.{IsUntouched};

use crate::slot_read::{SlotRead, read_slot};
use crate::stored::Stored;
use crate::{Keep, SlotFault};
use chew_outside::Disk;
use chew_trie_image::EMPTY_IMAGE;
use chew_trie_read::Trie;
use std::alloc::Global;

/// The user's map and its life, and what is known of the slots.
#[derive(Drop)]
pub struct Found {
    pub map: Trie,
    pub life: u64,
    pub keep: Keep,
}

/// Finds the user's map: that of the open slot with the greater number, of slot 0 where they are equal, and the empty
/// map with life 0 where no slot is open. Slot 0 is treated wholly before slot 1, and nothing is written. A slot that is
/// empty is not read. A call of the disk that fails ends it.
pub fn recover<D: Disk>(alloc: Global, disk: &mut D) -> Result<Found, SlotFault>
    ensures told { D.told disk.new ≡ D.told disk.old }
    ensures is_disk { D.told disk.old ≡ true → IsDisk (D.state disk.new) }
    ensures untouched { D.told disk.old ≡ true → IsUntouched (D.state disk.old) (D.state disk.new) }
    ensures cause { HasCause (D.faults disk.old) (D.faults disk.new) (disk_failed result) }
    ensures calls { D.told disk.old ≡ true → (D.state disk.new).moment ≤ (D.state disk.old).moment
        + (reading_calls ((D.state disk.old).reads 0) + reading_calls ((D.state disk.old).reads 1)) }
    ensures order { D.told disk.old ≡ true → refusal 0 ((D.state disk.old).reads 0) ≢ None →
        (D.state disk.new).moment ≤ (D.state disk.old).moment + reading_calls ((D.state disk.old).reads 0) }
    ensures answer { (zero one : List ℕ) × AreTold (D.told disk.old) ((D.state disk.old).reads 0) zero
        × AreTold (D.told disk.old) ((D.state disk.old).reads 1) one × Answers (recovered zero one) (found_keep zero one) result }
    ensures fits { D.told disk.old ≡ true → IsSettled (D.state disk.old) 0 → IsSettled (D.state disk.old) 1 →
        IfOk result (λ found. Fits found.keep (D.state disk.new)) }
    ensures state { D.told disk.old ≡ true → IsSettled (D.state disk.old) 0 → IsSettled (D.state disk.old) 1 →
        IfOk result (λ found. acknowledged_state found.keep (D.state disk.new) ≡ record { life = found.life; rows = found.map }) }
    ensures left { D.told disk.old ≡ true → IsSettled (D.state disk.old) 0 → IsSettled (D.state disk.old) 1 →
        IfOk result (λ found. left_state found.keep (D.state disk.new) ≡ None) }
{
    let zero = read_slot(alloc, disk, 0)?;
    let one = read_slot(alloc, disk, 1)?;
    newer(alloc, zero, one)
}

// What two slots hold that were read.
fn newer(alloc: Global, zero: SlotRead, one: SlotRead) -> Result<Found, SlotFault>
    ensures keep { IfOk result (λ found. found.keep ≡ keep_for zero.is_shut one.is_shut (newest (reading_of zero.stored) (reading_of one.stored))) }
    ensures state { IfOk result
        (λ found. checkpoint_of (newest (reading_of zero.stored) (reading_of one.stored)) ≡ record { life = found.life; rows = found.map }) }
    ensures memory { IfErr result (λ fault. fault ≡ SlotFault.NoMemory) }
{
    let zero_shut = zero.is_shut;
    let one_shut = one.is_shut;
    match zero.stored {
        None => match one.stored {
            None => nothing(alloc, zero_shut, one_shut),
            Some(one) => Ok(counts(1, one, zero_shut, one_shut)),
        },
        Some(zero) => match one.stored {
            None => Ok(counts(0, zero, zero_shut, one_shut)),
            Some(one) => {
                if zero.seq < one.seq {
                    Ok(counts(1, one, zero_shut, one_shut))
                } else {
                    Ok(counts(0, zero, zero_shut, one_shut))
                }
            }
        },
    }
}

// The slot that counts.
fn counts(slot: u8, stored: Stored, zero_shut: bool, one_shut: bool) -> Found
    requires { slot < 2 }
    ensures keep { result.keep ≡ keep_for zero_shut one_shut (Some (record { slot = slot; saved = stored })) }
    ensures state { stored.checkpoint ≡ record { life = result.life; rows = result.map } }
{
    let Stored { seq, life, map } = stored;
    Found {
        map,
        life,
        keep: Keep::of_slot(slot, seq, zero_shut, one_shut),
    }
}

// The empty map, where no slot counts.
fn nothing(alloc: Global, zero_shut: bool, one_shut: bool) -> Result<Found, SlotFault>
    ensures keep { IfOk result (λ found. found.keep ≡ keep_for zero_shut one_shut None) }
    ensures state { IfOk result (λ found. checkpoint_of None ≡ record { life = found.life; rows = found.map }) }
    ensures memory { IfErr result (λ fault. fault ≡ SlotFault.NoMemory) }
{
    Ok(Found {
        map: empty_map(alloc)?,
        life: 0,
        keep: Keep::of_none(zero_shut, one_shut),
    })
}

fn empty_map(alloc: Global) -> Result<Trie, SlotFault>
    ensures map { IfOk result (λ map. map ≡ []) }
    ensures memory { IfErr result (λ fault. fault ≡ SlotFault.NoMemory) }
{
    let image = match Vec::from_slice(alloc, &EMPTY_IMAGE) {
        Ok(image) => image,
        Err(_) => return Err(SlotFault::NoMemory),
    };
    Ok(Trie::of_image(image))
}
