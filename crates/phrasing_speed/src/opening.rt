use chew_measuring::Failure;
use chew_outside::{StdSource, read_up_to};
use chew_plain::RowMap;
use chew_rows::{SYSTEM_LIMIT, read_rows};
use chew_script::{KeyStroke, SCRIPT_LIMIT, read_script};
use std::alloc::AllocGlobal;
use std::fs;
use std::fs::Files;

pub(crate) fn system_of<R: Files + AllocGlobal>(rt: &R, name: &str) -> Result<RowMap, Failure> {
    let mut source = StdSource::of(fs::open(rt, name)?);
    let Ok(text) = read_up_to(rt.alloc(), &mut source, SYSTEM_LIMIT) else {
        return Err(Failure::Form);
    };
    let Ok(rows) = read_rows(rt.alloc(), &text) else {
        return Err(Failure::Form);
    };
    match RowMap::of(rows) {
        Ok(map) => Ok(map),
        Err(_) => Err(Failure::NoMemory),
    }
}

pub(crate) fn keys_of<R: Files + AllocGlobal>(
    rt: &R,
    name: &str,
) -> Result<Vec<KeyStroke>, Failure> {
    let mut source = StdSource::of(fs::open(rt, name)?);
    let Ok(text) = read_up_to(rt.alloc(), &mut source, SCRIPT_LIMIT) else {
        return Err(Failure::Form);
    };
    let Ok(script) = read_script(rt.alloc(), &text) else {
        return Err(Failure::Form);
    };
    let mut contexts = script.contexts.into_vec();
    match contexts.pop() {
        Some(keys) => Ok(keys),
        None => Ok(Vec::new(rt.alloc())),
    }
}
