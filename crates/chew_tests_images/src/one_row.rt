//! The image of the one row 測試, and what is faulty once it is cut or made longer.

use crate::order::rises;
use chew_samples::{CE, SHI, row, syllable};
use chew_syllable::KeyRow;
use chew_trie_image::check_image;
use chew_trie_write::write_image;
use std::alloc::Global;
use std::test::Fail;

/// Its 94 bytes, field by field.
pub(crate) const BYTES: [u8; 94] = [
    0x43, 0x48, 0x45, 0x57, 0x54, 0x52, 0x49, 0x31, 0x01, 0x00, 0x00, 0x00, 0x03, 0x00, 0x00, 0x00,
    0x06, 0x00, 0x00, 0x00, 0x00, 0x00, 0x01, 0x00, 0x01, 0x00, 0x00, 0x00, 0x00, 0x00, 0x00, 0x00,
    0x00, 0x00, 0x00, 0x00, 0x1c, 0x28, 0x01, 0x00, 0x02, 0x00, 0x00, 0x00, 0x00, 0x00, 0x00, 0x00,
    0x00, 0x00, 0x00, 0x00, 0x04, 0x22, 0x00, 0x00, 0x03, 0x00, 0x00, 0x00, 0x01, 0x00, 0x00, 0x00,
    0x00, 0x00, 0x00, 0x00, 0x66, 0x24, 0x00, 0x00, 0x00, 0x00, 0x00, 0x00, 0x06, 0x00, 0x00, 0x00,
    0x00, 0x00, 0x00, 0x00, 0x00, 0x00, 0x00, 0x00, 0xe6, 0xb8, 0xac, 0xe8, 0xa9, 0xa6,
];

/// The row.
pub(crate) fn one_row(alloc: Global) -> Result<Vec<KeyRow>, Fail> {
    let Some(only) = row(&[syllable(CE), syllable(SHI)], "測試", 9318) else {
        return Err(Fail::new("no row"));
    };
    Ok(vec![in alloc; only]?)
}

/// Writes rows that rise.
pub(crate) fn written(alloc: Global, rows: &[KeyRow]) -> Result<Vec<u8>, Fail> {
    if rows.len() > 250_000 {
        return Err(Fail::new("too many rows"));
    }
    if !rises(rows) {
        return Err(Fail::new("rows in no order"));
    }
    Ok(write_image(alloc, rows)?)
}

/// The first faulty place, or none.
pub(crate) fn place_of(bytes: &[u8]) -> Option<u64> {
    match check_image(bytes) {
        Ok(()) => None,
        Err(fault) => Some(fault.place),
    }
}

#[test]
fn the_image_of_one_row_has_these_bytes(rt: HostRuntime) -> Result<(), Fail> {
    let rows = one_row(rt.alloc())?;
    let image = written(rt.alloc(), &rows)?;
    assert_eq!(rt; image.as_slice(), BYTES.as_slice());
    assert_eq!(rt; place_of(&image), None);
    Ok(())
}

#[test]
fn a_cut_image_is_faulty_at_its_length(rt: HostRuntime) {
    for n in 0..BYTES.len() {
        let wanted = if n < 8 { 0 } else { n as u64 };
        assert_eq!(rt; place_of(&BYTES[..n]), Some(wanted), "the first {n} bytes");
    }
}

#[test]
fn an_image_with_a_byte_more_is_faulty_there(rt: HostRuntime) -> Result<(), Fail> {
    let mut longer = Vec::new(rt.alloc());
    longer.extend_from_slice(&BYTES)?;
    longer.push(0)?;
    assert_eq!(rt; place_of(&longer), Some(94));
    Ok(())
}
