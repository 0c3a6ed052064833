ghost use Rattle.std.specs.Prelude.{◌≡◌, ◌++◌, ◌≤◌, IfOk, OnOk, length};
ghost use Rattle.std.specs.Int.{to_le_bytes, w64};
ghost use Rattle.chew_spec_slots.specs.Slot.{IsSaved, body as slot_body, digest_magic};

use crate::damage::DIGEST_MAGIC;
use crate::fields::{DIGEST_LEN, HEAD_LEN, digest};
use chew_syllable::NoMemory;
use chew_trie_read::Trie;
use std::alloc::Global;

/// The bytes of a slot behind its gate, in the second format: a checkpoint of this map and life, with this number from 1
/// on. A slot has at most 200,000 rows.
pub fn body_of(alloc: Global, seq: u64, life: u64, map: &Trie) -> Result<Vec<u8>, NoMemory>
    requires first { 1 ≤ seq }
    requires few { length map.now ≤ 200_000 }
    ensures body { IfOk result (λ body. body.items ≡ slot_body (record { seq = seq; checkpoint = record { life = life; rows = map.now } })) }
    ensures saved { IsSaved (record { seq = seq; checkpoint = record { life = life; rows = map.now } }) }
{
    can_be_saved(seq, life, map);
    let mut body = fields_of(alloc, seq, life, map.bytes())?;
    let digest = digest(body.as_slice());
    push(&mut body, &digest)?;
    Ok(body)
}

// The image of a dictionary is read as its rows.
fn can_be_saved(seq: u64, life: u64, map: &Trie)
    requires first { 1 ≤ seq }
    requires few { length map.now ≤ 200_000 }
    ensures { IsSaved (record { seq = seq; checkpoint = record { life = life; rows = map.now } }) }
{
    let _image = map.bytes();
}

// More bytes.
fn push(body: &mut Vec<u8>, bytes: &[u8]) -> Result<(), NoMemory>
    ensures { OnOk result (body.new.items ≡ body.old.items ++ bytes.now) }
{
    body.extend_from_slice(bytes)?;
    Ok(())
}

// The magic, the numbers and the image.
fn fields_of(alloc: Global, seq: u64, life: u64, image: &[u8]) -> Result<Vec<u8>, NoMemory>
    ensures { IfOk result (λ fields. fields.items ≡ digest_magic ++ (to_le_bytes w64 seq ++ (to_le_bytes w64 life
        ++ (to_le_bytes w64 (length image.now) ++ image.now)))) }
{
    let mut fields = Vec::new(alloc);
    fields.reserve(
        HEAD_LEN
            .saturating_add(image.len())
            .saturating_add(DIGEST_LEN),
    )?;
    fields.extend_from_slice(&DIGEST_MAGIC)?;
    fields.extend_from_slice(&seq.to_le_bytes())?;
    fields.extend_from_slice(&life.to_le_bytes())?;
    fields.extend_from_slice(&(image.len() as u64).to_le_bytes())?;
    fields.extend_from_slice(image)?;
    Ok(fields)
}
