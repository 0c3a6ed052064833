//! Small images of which each byte is changed: the check tells the same as a second reading.

use crate::one_row::{one_row, place_of, written};
use crate::second_reading::{Notes, faulty_place, no_notes};
use chew_plain::sort_rows;
use chew_samples::{CE, SHI, five, row, syllable};
use chew_syllable::KeyRow;
use std::alloc::Global;
use std::test::Fail;

/// What a byte is changed to, beside what it is with one more, one less and its lowest bit turned.
const VALUES: [u8; 9] = [0, 1, 2, 3, 4, 0x22, 0x28, 0x80, 0xff];

/// Rows of one to three syllables, and times.
fn longer_rows(alloc: Global) -> Result<Vec<KeyRow>, Fail> {
    let ce = syllable(CE);
    let shi = syllable(SHI);
    let mut rows = five(alloc)?;
    for more in [
        row(&[ce, shi, ce], "測試測", 7),
        row(&[ce, shi, shi], "測試是", 0),
        row(&[shi, ce, shi], "是測試", 99_999_999),
    ] {
        if let Some(mut more) = more {
            more.time = u64::MAX;
            rows.push(more)?;
        }
    }
    Ok(rows)
}

/// Whether the check and the second reading tell the same of bytes.
fn agree(notes: &mut Notes, bytes: &[u8]) -> Result<bool, Fail> {
    Ok(place_of(bytes) == faulty_place(notes, bytes)?)
}

/// Whether they do so of an image with each of its bytes changed, and cut at each of them.
fn agree_once_changed(notes: &mut Notes, image: &mut [u8]) -> Result<bool, Fail> {
    for i in 0..image.len() {
        let old = image[i];
        for value in VALUES {
            image[i] = value;
            if !agree(notes, image)? {
                return Ok(false);
            }
        }
        for value in [old.wrapping_add(1), old.wrapping_sub(1), old ^ 1] {
            image[i] = value;
            if !agree(notes, image)? {
                return Ok(false);
            }
        }
        image[i] = old;
        if !agree(notes, &image[..i])? {
            return Ok(false);
        }
    }
    agree(notes, image)
}

#[test]
fn changed_images_are_faulty_where_a_second_reading_says(rt: HostRuntime) -> Result<(), Fail> {
    let mut notes = no_notes(rt.alloc());
    let mut sorted = five(rt.alloc())?;
    sort_rows(&mut sorted)?;
    let mut longer = longer_rows(rt.alloc())?;
    sort_rows(&mut longer)?;
    for rows in [Vec::new(rt.alloc()), one_row(rt.alloc())?, sorted, longer] {
        let mut image = written(rt.alloc(), &rows)?;
        assert!(rt;
            agree_once_changed(&mut notes, image.as_mut_slice())?,
            "{} rows",
            rows.len()
        );
    }
    Ok(())
}

#[test]
fn swapped_nodes_are_faulty_where_a_second_reading_says(rt: HostRuntime) -> Result<(), Fail> {
    let mut notes = no_notes(rt.alloc());
    let mut rows = longer_rows(rt.alloc())?;
    sort_rows(&mut rows)?;
    let mut image = written(rt.alloc(), &rows)?;
    for i in 0..6 {
        for offset in 0..16 {
            let place = 20 + 16 * i + offset;
            assert!(rt; place + 16 < image.len());
            image.swap(place, place + 16);
            assert!(rt;
                agree(&mut notes, &image)?,
                "{offset} bytes of node {i} and the next"
            );
        }
        for offset in 0..16 {
            let place = 20 + 16 * i + offset;
            assert!(rt; place + 16 < image.len());
            image.swap(place, place + 16);
        }
    }
    Ok(())
}
