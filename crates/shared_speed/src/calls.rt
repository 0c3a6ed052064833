use crate::words::Word;
use chew_measuring::Failure;
use chew_shared_samples::UserCall;
use chew_syllable::{Run, Syllable};
use std::alloc::Global;

/// How many words a line has.
const WORDS: usize = 4;

/// How far the next word is from the one before it. No number of words below it has a factor of it, since it is a prime.
const STEP: usize = 500_009;

/// The word that comes after so many others, in an order of no meaning.
fn word_after(words: &[Word], count: usize) -> Option<&Word> {
    words.get(count.wrapping_mul(STEP).checked_rem(words.len())?)
}

/// Adds a call to others, if there is one.
fn add(calls: &mut Vec<UserCall>, call: Option<UserCall>) -> Result<(), Failure> {
    if let Some(call) = call {
        calls.push(call)?;
    }
    Ok(())
}

/// Types a word: after each of its syllables the whole line is looked up.
fn type_word(
    calls: &mut Vec<UserCall>,
    cells: &mut Vec<Syllable>,
    word: &Word,
) -> Result<(), Failure> {
    for syllable in word.syllables() {
        cells.push(*syllable)?;
        add(calls, Run::of(cells.as_slice()).map(UserCall::look))?;
    }
    Ok(())
}

/// Types a line of words, of which the first comes after so many others, and learns each.
fn type_line(
    alloc: Global,
    calls: &mut Vec<UserCall>,
    words: &[Word],
    before: usize,
) -> Result<(), Failure> {
    let mut cells = Vec::new(alloc);
    for place in 0..WORDS {
        if let Some(word) = word_after(words, before.wrapping_add(place)) {
            type_word(calls, &mut cells, word)?;
        }
    }
    for place in 0..WORDS {
        if let Some(word) = word_after(words, before.wrapping_add(place)) {
            add(calls, word.learn())?;
        }
    }
    Ok(())
}

/// The calls of so many lines.
pub(crate) fn typed(alloc: Global, words: &[Word], lines: usize) -> Result<Vec<UserCall>, Failure> {
    let mut calls = Vec::new(alloc);
    for line in 0..lines {
        type_line(alloc, &mut calls, words, line.wrapping_mul(WORDS))?;
    }
    Ok(calls)
}

/// The call that comes after so many others, from the beginning again where the calls end.
pub(crate) fn call_after(calls: &[UserCall], count: u64) -> Option<&UserCall> {
    calls.get((count as usize).checked_rem(calls.len())?)
}
