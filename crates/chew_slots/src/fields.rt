//! The fields of a slot, by their places.

ghost use Rattle.std.specs.Prelude.{◌≡◌, ◌+◌, ◌≤◌, length};
ghost use Rattle.chew_spec_image.specs.Fields.{u64_at};
ghost use Rattle.chew_spec_slots.specs.Reading.{image_len, is_open, is_surely_shut, life_in, seq_in};
ghost use Rattle.chew_spec_slots.specs.Slot.{digest};

use sha2::{Digest, Sha256};

/// The byte of an open gate.
pub(crate) const OPEN: u8 = 0xA5;

/// Where the seq stands, and the life, and the length of the image.
pub(crate) const SEQ_PLACE: usize = 9;

const LIFE_PLACE: usize = 17;

const LEN_PLACE: usize = 25;

/// Where the image begins: a slot is open only where it has so many bytes.
pub(crate) const HEAD_LEN: usize = 33;

/// The length of a digest.
pub(crate) const DIGEST_LEN: usize = 32;

/// All fields stand, and the gate is open.
pub(crate) fn is_open(bytes: &[u8]) -> bool
    ensures { result ≡ is_open bytes.now }
{
    if bytes.len() < HEAD_LEN {
        return false;
    }
    bytes[0] == OPEN
}

/// The gate stands, and isn't open.
pub(crate) fn is_surely_shut(bytes: &[u8]) -> bool
    ensures { result ≡ is_surely_shut bytes.now }
{
    if bytes.is_empty() {
        return false;
    }
    bytes[0] != OPEN
}

// The number in eight bytes, the low byte first.
fn u64_at(bytes: &[u8], place: usize) -> u64
    requires { place + 8 ≤ length bytes.now }
    ensures { result ≡ u64_at bytes.now place }
{
    let part = &bytes[place..place + 8];
    u64::from_le_bytes([
        part[0], part[1], part[2], part[3], part[4], part[5], part[6], part[7],
    ])
}

/// The number of the checkpoint.
pub(crate) fn seq_in(bytes: &[u8]) -> u64
    requires { 33 ≤ length bytes.now }
    ensures { result ≡ seq_in bytes.now }
{
    u64_at(bytes, SEQ_PLACE)
}

/// The map's life.
pub(crate) fn life_in(bytes: &[u8]) -> u64
    requires { 33 ≤ length bytes.now }
    ensures { result ≡ life_in bytes.now }
{
    u64_at(bytes, LIFE_PLACE)
}

/// The length of the image.
pub(crate) fn image_len(bytes: &[u8]) -> u64
    requires { 33 ≤ length bytes.now }
    ensures { result ≡ image_len bytes.now }
{
    u64_at(bytes, LEN_PLACE)
}

/// The SHA-256 of bytes.
#[tactic(auto, unfolding(chew_spec_slots::specs::Slot::digest))]
pub(crate) fn digest(bytes: &[u8]) -> [u8; 32]
    ensures { result ≡ digest bytes.now }
{
    Sha256::digest(bytes)
}
