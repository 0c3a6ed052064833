//! What the bytes of a slot stand for.

ghost use Rattle.std.specs.Prelude.{◌≡◌, ◌+◌, ◌≤◌, ◌^◌, ℕ, Ok, IfErr, IfOk, List, length};
ghost use Rattle.chew_spec_image.specs.Reading.{image_reading};
ghost use Rattle.chew_spec_slots.specs.Reading.{as_open, image_in, image_len, saved_as, saved_in, slot_reading};
ghost use Rattle.chew_slots.specs.Contents.{TellsFaulty, reading_of};

use crate::damage::fault_in;
use crate::fields::{HEAD_LEN, image_len, is_open, life_in, seq_in};
use chew_syllable::USER_ROWS_LIMIT;
use chew_trie_read::Trie;
use std::alloc::Global;
use std::marker::Model;

/// Where the image tells how many rows it has.
const ROWS_PLACE: u64 = HEAD_LEN as u64 + 8;

/// A checkpoint: its number, the map and the map's life.
#[derive(Drop)]
pub(crate) struct Stored {
    pub(crate) seq: u64,
    pub(crate) life: u64,
    pub(crate) map: Trie,
}

impl Model for Stored {
    ghost use Rattle.chew_spec_slots.specs.Slot.{Saved};

    ghost Value = { Saved };

    ghost view = { λ a. record { seq = a.seq; checkpoint = record { life = a.life; rows = a.map } } };
}

/// Why bytes give no checkpoint.
#[derive(Clone, Copy)]
pub(crate) enum StoredFault {
    /// The first faulty place.
    Damaged { place: u64 },
    /// Memory for the map was refused.
    NoMemory,
}

/// The checkpoint that a slot stands for where its gate is open.
pub(crate) fn stored_in(alloc: Global, bytes: &[u8]) -> Result<Option<Stored>, StoredFault>
    requires { length bytes.now ≤ 2 ^ 28 }
    ensures ok { IfOk result (λ stored. slot_reading bytes.now ≡ reading_of stored) }
    ensures err { IfErr result (λ fault. TellsFaulty (slot_reading bytes.now) fault) }
{
    if !is_open(bytes) {
        return Ok(None);
    }
    Ok(Some(open_in(alloc, bytes)?))
}

// The same of an open slot.
fn open_in(alloc: Global, bytes: &[u8]) -> Result<Stored, StoredFault>
    requires long { 33 ≤ length bytes.now }
    requires fits { length bytes.now ≤ 2 ^ 28 }
    ensures ok { IfOk result (λ stored. saved_in bytes.now ≡ Ok stored) }
    ensures err { IfErr result (λ fault. TellsFaulty (as_open (saved_in bytes.now)) fault) }
{
    match fault_in(bytes) {
        Some(place) => Err(StoredFault::Damaged { place }),
        None => with_image(alloc, bytes),
    }
}

// The same where no place before the image is faulty.
fn with_image(alloc: Global, bytes: &[u8]) -> Result<Stored, StoredFault>
    requires room { 33 + image_len bytes.now ≤ length bytes.now }
    requires fits { length bytes.now ≤ 2 ^ 28 }
    ensures ok { IfOk result (λ stored. saved_as bytes.now (image_reading (image_in bytes.now)) ≡ Ok stored) }
    ensures err { IfErr result (λ fault. TellsFaulty (as_open (saved_as bytes.now (image_reading (image_in bytes.now)))) fault) }
{
    let end = HEAD_LEN + image_len(bytes) as usize;
    let map = map_in(alloc, &bytes[HEAD_LEN..end])?;
    if map.total() > USER_ROWS_LIMIT {
        return Err(StoredFault::Damaged { place: ROWS_PLACE });
    }
    Ok(Stored {
        seq: seq_in(bytes),
        life: life_in(bytes),
        map,
    })
}

// The map of an image, whose places are told from the slot's front.
fn map_in(alloc: Global, image: &[u8]) -> Result<Trie, StoredFault>
    requires { length image.now ≤ 2 ^ 28 }
    ensures ok { IfOk result (λ map. image_reading image.now ≡ Ok map) }
    ensures err { IfErr result (λ fault. (bytes : List ℕ) → TellsFaulty (as_open (saved_as bytes (image_reading image.now))) fault) }
{
    let copy = match Vec::from_slice(alloc, image) {
        Ok(copy) => copy,
        Err(_) => return Err(StoredFault::NoMemory),
    };
    match Trie::of(copy) {
        Ok(map) => Ok(map),
        Err(fault) => Err(StoredFault::Damaged {
            place: HEAD_LEN as u64 + fault.place,
        }),
    }
}
