//! The first faulty place of an open slot, before its image.

ghost use Rattle.std.specs.Prelude.{◌≡◌, ◌+◌, ◌≤◌, ℕ, Err, IfNone, IfSome, Some, bytes_eq, drop, length, take};
ghost use Rattle.chew_spec_image.specs.Reading.{image_reading};
ghost use Rattle.chew_spec_slots.specs.Reading.{digest_fault, image_in, image_len, plain_fault, saved_as, saved_in};
ghost use Rattle.chew_spec_slots.specs.Slot.{digest_magic, magic};

use crate::fields::{DIGEST_LEN, HEAD_LEN, SEQ_PLACE, digest, image_len, seq_in};

/// Where the magic stands, and the seq behind it.
const MAGIC_PLACE: usize = 1;

/// The eight bytes behind the gate, in the first format and in the second.
const PLAIN_MAGIC: [u8; 8] = *b"CHEWSLT1";

pub(crate) const DIGEST_MAGIC: [u8; 8] = *b"CHEWSLT2";

/// The first faulty place before the image; the second format has a digest.
pub(crate) fn fault_in(bytes: &[u8]) -> Option<u64>
    requires { 33 ≤ length bytes.now }
    ensures some { IfSome result (λ place. saved_in bytes.now ≡ Err place) }
    ensures none { IfNone result (saved_in bytes.now ≡ saved_as bytes.now (image_reading (image_in bytes.now))) }
    ensures room { IfNone result (33 + image_len bytes.now ≤ length bytes.now) }
{
    if has_magic(bytes, &PLAIN_MAGIC) {
        return plain_fault(bytes);
    }
    if has_magic(bytes, &DIGEST_MAGIC) {
        return digest_fault(bytes);
    }
    Some(MAGIC_PLACE as u64)
}

fn has_magic(bytes: &[u8], magic: &[u8; 8]) -> bool
    requires { 33 ≤ length bytes.now }
    ensures { result ≡ bytes_eq (take 8 (drop 1 bytes.now)) magic.now }
{
    let magic_in = &bytes[MAGIC_PLACE..SEQ_PLACE];
    magic_in == magic.as_slice()
}

// The same of the first format.
fn plain_fault(bytes: &[u8]) -> Option<u64>
    requires { 33 ≤ length bytes.now }
    ensures fault { result ≡ plain_fault bytes.now }
    ensures room { IfNone result (33 + image_len bytes.now ≤ length bytes.now) }
{
    if seq_in(bytes) == 0 {
        return Some(SEQ_PLACE as u64);
    }
    if image_len(bytes) > (bytes.len() - HEAD_LEN) as u64 {
        return Some(bytes.len() as u64);
    }
    None
}

// The same of the second format.
fn digest_fault(bytes: &[u8]) -> Option<u64>
    requires { 33 ≤ length bytes.now }
    ensures fault { result ≡ digest_fault bytes.now }
    ensures room { IfNone result (33 + image_len bytes.now ≤ length bytes.now) }
{
    if seq_in(bytes) == 0 {
        return Some(SEQ_PLACE as u64);
    }
    let behind = bytes.len() - HEAD_LEN;
    if behind < DIGEST_LEN || image_len(bytes) > (behind - DIGEST_LEN) as u64 {
        return Some(bytes.len() as u64);
    }
    let end = HEAD_LEN + image_len(bytes) as usize;
    let digest = digest(&bytes[MAGIC_PLACE..end]);
    if digest.as_slice() != &bytes[end..end + DIGEST_LEN] {
        return Some(end as u64);
    }
    None
}
