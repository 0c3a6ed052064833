//! The calls that contexts make.

use crate::failure::Failure;
use chew_samples::{CE, SHI, syllable};
use chew_shared_samples::{UserCall, pair};
use chew_syllable::{GREATEST_FREQ, Run, Syllable};
use std::alloc::Global;

/// To learn a pair, whose frequency in the system is at most the greatest of its key.
fn learn(key: &[Syllable], text: &str, orig: u32, peak: u32) -> Option<UserCall> {
    let (key, phrase) = pair(key, text)?;
    if orig > peak {
        return None;
    }
    if peak > GREATEST_FREQ {
        return None;
    }
    Some(UserCall::learn(key, phrase, orig, peak))
}

/// To forget a pair.
fn forget(key: &[Syllable], text: &str) -> Option<UserCall> {
    let (key, phrase) = pair(key, text)?;
    Some(UserCall::forget(key, phrase))
}

/// To hide a pair of at least two syllables.
fn hide(key: &[Syllable], text: &str) -> Option<UserCall> {
    let (key, phrase) = pair(key, text)?;
    if key.len() < 2 {
        return None;
    }
    Some(UserCall::hide(key, phrase))
}

/// Adds a call to others.
fn add(calls: &mut Vec<UserCall>, call: Option<UserCall>) -> Result<(), Failure> {
    match call {
        Some(call) => Ok(calls.push(call)?),
        None => Err(Failure::NoCall),
    }
}

/// ㄘㄜˋ ㄕˋ. The key of each pair that is learnt is an interval of these two.
pub(crate) fn both_syllables() -> [Syllable; 2] {
    [syllable(CE), syllable(SHI)]
}

/// They learn, forget and hide six pairs of ㄘㄜˋ, ㄕˋ and both, and look up both.
pub(crate) fn all_calls(alloc: Global) -> Result<Vec<UserCall>, Failure> {
    let both = both_syllables();
    let ce = [syllable(CE)];
    let shi = [syllable(SHI)];
    let mut calls = Vec::new(alloc);
    for text in ["測", "策"] {
        add(&mut calls, learn(&ce, text, 100, 200))?;
        add(&mut calls, forget(&ce, text))?;
    }
    add(&mut calls, learn(&shi, "是", 9000, 9000))?;
    for text in ["測試", "策是", "策試"] {
        add(&mut calls, learn(&both, text, 0, 9318))?;
        add(&mut calls, forget(&both, text))?;
        add(&mut calls, hide(&both, text))?;
        add(&mut calls, Run::of(&both).map(UserCall::look))?;
    }
    Ok(calls)
}
