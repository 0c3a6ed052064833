//! A buffer of the most cells, 39, and a syllable more.

use crate::samples::{after, ends_with, settings};
use chew_syllable::NoMemory;
use std::alloc::Global;
use std::process::Abort;
use std::test::Fail;

/// A text nineteen times.
fn nineteen(alloc: Global, text: &str) -> Result<String, NoMemory> {
    let mut times = String::new(alloc);
    for _ in 0..19 {
        times.push_str(text)?;
    }
    Ok(times)
}

/// The keys of 39 syllables, by turns ㄘㄜˋ and ㄕˋ, and of one more.
fn keys(alloc: Global) -> Result<String, Fail> {
    let pairs = nineteen(alloc, "hk4g4")?;
    Ok(format!(in alloc; "{}hk4g4", pairs.as_str())?)
}

/// The lines of the last three keys: 測試 nineteen times and 策; the same while ㄕ is held; and, as the first 測試 goes out, 測試
/// with the new syllable in place of 策.
fn lines(alloc: Global) -> Result<String, Fail> {
    let pairs = nineteen(alloc, "測試")?;
    let pairs = pairs.as_str();
    Ok(format!(in alloc; "{pairs}策\t78\t\t\t\t\n{pairs}策\t78\tㄕ\t\t\t\n{pairs}\t76\t\t測試\t\t\n")?)
}

/// These keys print lines that end with these, in a buffer of 39 cells.
fn print(rt: &impl Abort, alloc: Global, keys: &str, lines: &str) -> Result<(), Fail> {
    let alone = after(alloc, &settings(39, 10, true, 65_536), keys)?;
    ends_with(rt, &alone, lines);
    Ok(())
}

#[test]
fn a_full_buffer_of_thirty_nine_takes_a_syllable_more(rt: HostRuntime) -> Result<(), Fail> {
    let keys = keys(rt.alloc())?;
    let lines = lines(rt.alloc())?;
    print(&rt, rt.alloc(), &keys, &lines)
}
