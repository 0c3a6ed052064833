//! Maps that the tests know.

ghost use Rattle.std.specs.Prelude.{◌≡◌, ◌==◌, ◌&&◌, IfOk, bytes_eq};
ghost use Rattle.chew_spec_image.specs.Image.{image};
ghost use Rattle.chew_slot_samples.specs.Known.{empty_image, learnt_image, learnt_life, row_image};

use crate::known::{PLAIN_SLOT, patched};
use chew_slots::Found;
use chew_syllable::NoMemory;
use chew_trie_image::EMPTY_IMAGE;
use std::alloc::Global;

/// Where the image begins in a slot, and in it the row's frequency and its time.
const IMAGE_PLACE: usize = 33;

const FREQ_PLACE: usize = 68;

const TIME_PLACE: usize = 80;

/// A user's map.
#[derive(Clone, Copy, Debug, PartialEq, Eq)]
pub enum Learnt {
    /// No row.
    Nothing,
    /// 測試 after it was learnt once, and then so many times more.
    Again(u8),
}

/// The image of the row with a frequency and a time.
#[tactic(auto, unfolding(crate::specs::Known::row_image))]
fn image_with(alloc: Global, freq: u32, time: u64) -> Result<Vec<u8>, NoMemory>
    ensures { IfOk result (λ image. image.items ≡ row_image freq time) }
{
    let image = &PLAIN_SLOT[IMAGE_PLACE..];
    let image = patched(alloc, image, FREQ_PLACE, &freq.to_le_bytes())?;
    patched(alloc, image.as_slice(), TIME_PLACE, &time.to_le_bytes())
}

// The image of the map that has no row.
#[tactic(auto, unfolding(crate::specs::Known::empty_image))]
fn empty_image(alloc: Global) -> Result<Vec<u8>, NoMemory>
    ensures { IfOk result (λ image. image.items ≡ empty_image) }
{
    Ok(Vec::from_slice(alloc, &EMPTY_IMAGE)?)
}

/// The image of a map.
#[tactic(auto, unfolding(crate::specs::Known::learnt_image))]
pub(crate) fn image_of(alloc: Global, learnt: Learnt) -> Result<Vec<u8>, NoMemory>
    ensures { IfOk result (λ image. image.items ≡ learnt_image learnt) }
{
    match learnt {
        Learnt::Nothing => empty_image(alloc),
        Learnt::Again(times) => image_with(alloc, 9318 + u32::from(times), u64::from(times)),
    }
}

/// The life of a map.
#[tactic(auto, unfolding(crate::specs::Known::learnt_life))]
pub(crate) fn life_of(learnt: Learnt) -> u64
    ensures { result ≡ learnt_life learnt }
{
    match learnt {
        Learnt::Nothing => 0,
        Learnt::Again(times) => 1 + u64::from(times),
    }
}

/// Whether this map was found, with its life.
pub fn is_found(alloc: Global, found: &Found, learnt: Learnt) -> Result<bool, NoMemory>
    ensures { IfOk result (λ is_found. is_found ≡ ((found.now.life == learnt_life learnt) && bytes_eq (image found.now.map) (learnt_image learnt))) }
{
    let image = image_of(alloc, learnt)?;
    if found.life != life_of(learnt) {
        return Ok(false);
    }
    Ok(found.map.bytes() == image.as_slice())
}
