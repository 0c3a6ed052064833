//! A second reading of a slot, written as plainly as can be.

use chew_trie_image::check_image;
use sha2::{Digest, Sha256};
use std::alloc::Global;
use std::test::Fail;

/// What a slot is.
#[derive(Drop)]
pub(crate) enum Reading {
    Shut,
    Open { seq: u64, life: u64, image: Vec<u8> },
    Faulty { place: u64 },
}

// The bytes from a place on, none where they are not so many.
fn part(bytes: &[u8], from: usize, len: usize) -> &[u8] {
    match bytes.get(from..from.saturating_add(len)) {
        Some(part) => part,
        None => &[],
    }
}

// The number in so many bytes, the low byte first.
fn number_in(bytes: &[u8]) -> u64 {
    let mut number = 0u64;
    for byte in bytes.iter().rev() {
        number = number.wrapping_mul(256).wrapping_add(u64::from(*byte));
    }
    number
}

// How many bytes stand behind the image, by the magic.
fn tail_of(magic: &[u8]) -> Option<u64> {
    if magic == b"CHEWSLT1".as_slice() {
        Some(0)
    } else if magic == b"CHEWSLT2".as_slice() {
        Some(32)
    } else {
        None
    }
}

// Whether the digest stands behind the image, of this length, where the format has one.
fn is_digested(bytes: &[u8], len: usize, tail: u64) -> bool {
    let digested = Sha256::digest(part(bytes, 1, len.saturating_add(32)));
    tail == 0 || digested.as_slice() == part(bytes, len.saturating_add(33), 32)
}

/// How the bytes of a slot read.
pub(crate) fn read(alloc: Global, bytes: &[u8]) -> Result<Reading, Fail> {
    if bytes.len() < 33 || !bytes.starts_with(&[0xA5]) {
        return Ok(Reading::Shut);
    }
    let Some(tail) = tail_of(part(bytes, 1, 8)) else {
        return Ok(Reading::Faulty { place: 1 });
    };
    if number_in(part(bytes, 9, 8)) == 0 {
        return Ok(Reading::Faulty { place: 9 });
    }
    let length = bytes.len() as u64;
    let len = number_in(part(bytes, 25, 8));
    if len.saturating_add(tail) > length.saturating_sub(33) {
        return Ok(Reading::Faulty { place: length });
    }
    if !is_digested(bytes, len as usize, tail) {
        return Ok(Reading::Faulty {
            place: len.saturating_add(33),
        });
    }
    read_image(alloc, bytes, part(bytes, 33, len as usize))
}

fn read_image(alloc: Global, bytes: &[u8], image: &[u8]) -> Result<Reading, Fail> {
    if let Err(fault) = check_image(image) {
        return Ok(Reading::Faulty {
            place: fault.place.saturating_add(33),
        });
    }
    if number_in(part(image, 8, 4)) > 200_000 {
        return Ok(Reading::Faulty { place: 41 });
    }
    Ok(Reading::Open {
        seq: number_in(part(bytes, 9, 8)),
        life: number_in(part(bytes, 17, 8)),
        image: Vec::from_slice(alloc, image)?,
    })
}
