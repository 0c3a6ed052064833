//! The limits of a dictionary's text: 64 MiB, and 250,000 rows.

ghost use Rattle.std.specs.Prelude.{◌<◌};

use chew_rows::{ROWS_LIMIT, RowCause, RowsFault, SYSTEM_LIMIT, print_rows, read_rows};
use std::alloc::{AllocError, Global};
use std::process::Abort;
use std::test::Fail;

/// 64 MiB.
const MOST_BYTES: usize = 67_108_864;

/// A text of one byte, so often.
fn filled(alloc: Global, byte: u8, count: usize) -> Result<Vec<u8>, AllocError> {
    Ok(vec![in alloc; byte; count]?)
}

/// The text is refused for this line and cause.
fn fails(rt: &impl Abort, alloc: Global, text: &[u8], line: u32, cause: RowCause) {
    match read_rows(alloc, text) {
        Ok(_) => panic!(rt; "the text was read"),
        Err(fault) => assert_eq!(rt; fault, RowsFault::Bad { line, cause }),
    }
}

#[test]
fn a_text_of_64_mebibytes_is_read(rt: HostRuntime) -> Result<(), Fail> {
    let alloc = rt.alloc();
    let spaces = filled(alloc, b' ', MOST_BYTES)?;
    assert!(rt; read_rows(alloc, spaces.as_slice())?.is_empty());
    let letters = filled(alloc, b'a', MOST_BYTES)?;
    fails(&rt, alloc, letters.as_slice(), 1, RowCause::Phrase);
    Ok(())
}

#[test]
fn a_byte_more_is_too_long(rt: HostRuntime) -> Result<(), Fail> {
    let alloc = rt.alloc();
    let spaces = filled(alloc, b' ', MOST_BYTES + 1)?;
    fails(&rt, alloc, spaces.as_slice(), 0, RowCause::Size);
    let letters = filled(alloc, b'a', MOST_BYTES + 1)?;
    fails(&rt, alloc, letters.as_slice(), 0, RowCause::Size);
    Ok(())
}

/// Appends the rows of the phrases that begin with a character, 500 of them, each with its place among all as its
/// frequency.
fn push_rows(alloc: Global, text: &mut String, first: u32) -> Result<(), AllocError>
    requires { first < 500 }
{
    for second in 0..500u32 {
        let before = char::from_u32(0x4E00 + first).unwrap_or('測');
        let behind = char::from_u32(0x4E00 + second).unwrap_or('試');
        let place = first * 500 + second;
        text.push_str(format!(in alloc; "{before}{behind} {place} ㄘㄜˋ ㄕˋ\n")?.as_str())?;
    }
    Ok(())
}

#[test]
fn at_most_250000_rows(rt: HostRuntime) -> Result<(), Fail> {
    let alloc = rt.alloc();
    let mut text = String::new(alloc);
    for first in 0..500u32 {
        push_rows(alloc, &mut text, first)?;
    }
    let rows = read_rows(alloc, text.as_bytes())?;
    assert_eq!(rt; rows.len(), 250_000);
    assert_eq!(rt; rows[0].phrase.text(), "\u{4E00}\u{4E00}");
    assert_eq!(rt; rows[0].freq, 0);
    assert_eq!(rt; rows[249_999].phrase.text(), "\u{4FF3}\u{4FF3}");
    assert_eq!(rt; rows[249_999].freq, 249_999);
    let printed = print_rows(alloc, rows.as_slice())?;
    assert!(rt; printed.as_slice() == text.as_bytes());
    let had = text.len();
    text.push_str("\u{4E00}\u{4E00} 1 ㄘㄜˋ ㄕˋ\n")?;
    fails(&rt, alloc, text.as_bytes(), 250_001, RowCause::Twice);
    text.truncate(had);
    text.push_str("\u{4FF4}\u{4E00} 1 ㄘㄜˋ ㄕˋ\n")?;
    fails(&rt, alloc, text.as_bytes(), 250_001, RowCause::Rows);
    Ok(())
}

#[test]
fn known_limits(rt: HostRuntime) {
    assert_eq!(rt; SYSTEM_LIMIT, 67_108_864);
    assert_eq!(rt; ROWS_LIMIT, 250_000);
}
