ghost use Rattle.std.specs.Prelude.{IsTrue};
ghost use Rattle.chew_spec_syllable.specs.Row.{is_pair};

use crate::opening::{Base, map_of};
use chew_measuring::Failure;
use chew_samples::five;
use chew_shared_samples::{UserCall, pair};
use chew_syllable::{GREATEST_FREQ, Key, Phrase, Syllable};
use std::alloc::{AllocGlobal, Global};
use std::fs::Files;

/// What is typed.
#[derive(Drop)]
pub(crate) struct Word {
    key: Key,
    phrase: Phrase,
    freq: u32,
    ghost pair: { IsTrue (is_pair key phrase) },
}

impl Word {
    /// A word, where it has a character for each syllable.
    fn of(key: &[Syllable], text: &str, freq: u32) -> Option<Word> {
        let (key, phrase) = pair(key, text)?;
        Some(Word { key, phrase, freq })
    }

    /// Its syllables.
    pub(crate) fn syllables(&self) -> &[Syllable] {
        self.key.list()
    }

    /// To learn it.
    pub(crate) fn learn(&self) -> Option<UserCall> {
        if self.freq > GREATEST_FREQ {
            return None;
        }
        Some(UserCall::learn(self.key.copy(), self.phrase.copy(), self.freq, self.freq))
    }
}

/// Five words.
fn few_words(alloc: Global) -> Result<Vec<Word>, Failure> {
    let mut words = Vec::new(alloc);
    for row in &five(alloc)? {
        if let Some(word) = Word::of(row.key.list(), row.phrase.text(), row.freq) {
            words.push(word)?;
        }
    }
    Ok(words)
}

/// The words of the base; five where that has none.
pub(crate) fn words_of<R: Files + AllocGlobal>(
    rt: &R,
    base: &Base<'_>,
) -> Result<Vec<Word>, Failure> {
    let map = map_of(rt, base)?;
    if map.total() == 0 {
        return few_words(rt.alloc());
    }
    let mut words = Vec::new(rt.alloc());
    for (key, row) in map.each() {
        if let Some(word) = Word::of(key.list(), row.phrase, row.freq) {
            words.push(word)?;
        }
    }
    Ok(words)
}
