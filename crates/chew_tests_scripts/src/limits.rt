//! The limits of a script: 1 MiB, 65,536 keys, 64 rounds and 16 contexts.

use crate::script_text::{fails, reads};
use chew_script::{
    CONTEXTS_LIMIT, KEYS_LIMIT, ROUNDS_LIMIT, SCRIPT_LIMIT, ScriptCause, read_script,
};
use chew_syllable::NoMemory;
use std::alloc::Global;
use std::test::Fail;

/// A text that says the first line once and the second so often.
fn repeated(alloc: Global, first: &[u8], again: &[u8], times: u32) -> Result<Vec<u8>, NoMemory> {
    let mut text = Vec::new(alloc);
    text.extend_from_slice(first)?;
    for _ in 0..times {
        text.extend_from_slice(again)?;
    }
    Ok(text)
}

#[test]
fn at_most_64_rounds(rt: HostRuntime) -> Result<(), Fail> {
    let alloc = rt.alloc();
    let mut text = repeated(alloc, b"", b"round\n", 64)?;
    reads(&rt, alloc, text.as_slice(), &[], 64);
    text.extend_from_slice(b"# c\nround")?;
    fails(&rt, alloc, text.as_slice(), 66, ScriptCause::Rounds);
    Ok(())
}

#[test]
fn at_most_65536_keys(rt: HostRuntime) -> Result<(), Fail> {
    let alloc = rt.alloc();
    let mut text = repeated(alloc, b"16:h\n2:", b"h", 65_535)?;
    match read_script(alloc, text.as_slice()) {
        Ok(script) => {
            assert_eq!(rt; script.contexts.lists().len(), 16);
            let lengths = script.contexts.lists().iter().map(|keys| keys.len());
            assert!(rt; lengths.eq([0, 65_535, 0, 0, 0, 0, 0, 0, 0, 0, 0, 0, 0, 0, 0, 1]));
        }
        Err(_) => panic!(rt; "the script was refused"),
    }
    text.extend_from_slice(b"<E>")?;
    fails(&rt, alloc, text.as_slice(), 2, ScriptCause::Keys);
    text.extend_from_slice(b"<Q>\n17:")?;
    fails(&rt, alloc, text.as_slice(), 2, ScriptCause::Key);
    Ok(())
}

#[test]
fn at_most_a_mebibyte(rt: HostRuntime) -> Result<(), Fail> {
    let alloc = rt.alloc();
    let mut text = repeated(alloc, b"", b"# sixteen bytes\n", 65_536)?;
    reads(&rt, alloc, text.as_slice(), &[], 0);
    text.push(b'\x80')?;
    fails(&rt, alloc, text.as_slice(), 0, ScriptCause::Size);
    Ok(())
}

#[test]
fn known_limits(rt: HostRuntime) {
    assert_eq!(rt; SCRIPT_LIMIT, 1_048_576);
    assert_eq!(rt; KEYS_LIMIT, 65_536);
    assert_eq!(rt; ROUNDS_LIMIT, 64);
    assert_eq!(rt; CONTEXTS_LIMIT, 16);
}

/// A key by its longest name, so often in each of 16 contexts.
fn named(alloc: Global, times: u32) -> Result<Vec<u8>, NoMemory> {
    let mut text = Vec::new(alloc);
    for number in 1..=16u32 {
        text.extend_from_slice(format!(in alloc; "{number}:")?.as_bytes())?;
        for _ in 0..times {
            text.extend_from_slice(b"<C2>")?;
        }
        text.push(b'\n')?;
    }
    Ok(text)
}

#[test]
fn a_script_at_all_its_limits(rt: HostRuntime) -> Result<(), Fail> {
    let alloc = rt.alloc();
    let mut text = named(alloc, 4096)?;
    text.extend_from_slice(repeated(alloc, b"", b"round\n", 64)?.as_slice())?;
    text.push(b'#')?;
    for _ in text.len()..1_048_576 {
        text.push(b'#')?;
    }
    assert_eq!(rt; text.len(), 1_048_576);
    match read_script(alloc, text.as_slice()) {
        Ok(script) => {
            assert_eq!(rt; script.rounds, 64);
            assert_eq!(rt; script.contexts.lists().len(), 16);
            for keys in script.contexts.lists() {
                assert_eq!(rt; keys.len(), 4096);
            }
        }
        Err(_) => panic!(rt; "the script was refused"),
    }
    Ok(())
}
