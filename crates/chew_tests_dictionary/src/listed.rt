//! The rules of the user's dictionary once more, over a list of pairs in no order.

use crate::calls::pair;
use chew_plain::{Hit, Reply};
use chew_syllable::{Key, Phrase, Syllable};
use std::alloc::Global;
use std::cmp::{max, min};
use std::process::Abort;

/// A pair, and what it has.
#[derive(Drop)]
struct Held {
    key: Key,
    phrase: Phrase,
    freq: u32,
    time: u64,
    hidden: bool,
}

impl Held {
    /// Whether it is this pair.
    fn is(&self, key: &[Syllable], text: &str) -> bool {
        self.key.list() == key && self.phrase.text() == text
    }
}

/// The pairs that are held.
#[derive(Drop)]
pub(crate) struct Listed {
    pairs: Vec<Held>,
    life: u64,
    cap: usize,
}

impl Listed {
    /// No pair. `life` is how many learns came before.
    pub(crate) fn new(alloc: Global, life: u64, cap: usize) -> Listed {
        Listed {
            pairs: Vec::new(alloc),
            life,
            cap,
        }
    }

    /// How many learns came before.
    pub(crate) fn life(&self) -> u64 {
        self.life
    }

    /// How many pairs are held.
    pub(crate) fn count(&self) -> usize {
        self.pairs.len()
    }

    /// Learns a pair.
    pub(crate) fn learn(
        &mut self,
        rt: &impl Abort,
        key: &[Syllable],
        text: &str,
        orig: u32,
        peak: u32,
    ) -> Reply {
        let greatest = max(max(orig, peak), self.greatest_shown(key));
        let had = self.take(key, text);
        if had.is_none() && self.pairs.len() >= self.cap {
            return Reply::Full;
        }
        let freq = match had {
            Some(held) if !held.hidden => {
                let ticks = self.life.saturating_sub(held.time);
                risen(held.freq, orig, greatest, ticks)
            }
            _ => max(orig, 1),
        };
        let time = min(self.life, u64::MAX - 1);
        self.hold(rt, key, text, freq, time, false);
        self.life = self.life.saturating_add(1);
        Reply::Learned { freq, time }
    }

    /// Forgets a pair.
    pub(crate) fn forget(&mut self, key: &[Syllable], text: &str) -> Reply {
        match self.take(key, text) {
            Some(_) => Reply::Forgot,
            None => Reply::NotThere,
        }
    }

    /// Hides a pair.
    pub(crate) fn hide(&mut self, rt: &impl Abort, key: &[Syllable], text: &str) -> Reply {
        let had = self.take(key, text);
        if had.is_none() && self.pairs.len() >= self.cap {
            return Reply::Full;
        }
        let (freq, reply) = match had {
            Some(held) if held.hidden => (held.freq, Reply::NotThere),
            Some(held) => (held.freq, Reply::Hid),
            None => (0, Reply::Hid),
        };
        self.hold(rt, key, text, freq, 0, true);
        reply
    }

    /// How many pairs a key has.
    pub(crate) fn count_under(&self, key: &[Syllable]) -> usize {
        self.pairs
            .iter()
            .filter(|held| held.key.list() == key)
            .count()
    }

    /// Whether a hit of this key tells of a pair that is held.
    pub(crate) fn has(&self, key: &[Syllable], hit: &Hit) -> bool {
        self.pairs.iter().any(|held| {
            held.is(key, hit.phrase.text()) && (held.freq, held.hidden) == (hit.freq, hit.hidden)
        })
    }

    /// The greatest frequency of a key's pairs that are not hidden, or 0.
    fn greatest_shown(&self, key: &[Syllable]) -> u32 {
        let mut greatest = 0;
        for held in self.pairs.as_slice() {
            if held.key.list() == key && !held.hidden {
                greatest = max(greatest, held.freq);
            }
        }
        greatest
    }

    /// Takes a pair out.
    fn take(&mut self, key: &[Syllable], text: &str) -> Option<Held> {
        let place = self.pairs.iter().position(|held| held.is(key, text))?;
        if place < self.pairs.len() {
            Some(self.pairs.remove(place))
        } else {
            None
        }
    }

    /// Holds a pair that is not held.
    pub(crate) fn hold(
        &mut self,
        rt: &impl Abort,
        key: &[Syllable],
        text: &str,
        freq: u32,
        time: u64,
        hidden: bool,
    ) {
        let (key, phrase) = pair(rt, key, text);
        let held = Held {
            key,
            phrase,
            freq,
            time,
            hidden,
        };
        assert!(rt; self.pairs.push(held).is_ok(), "memory");
    }
}

/// The frequency of a pair that is learnt again, so many learns after it was learnt last.
fn risen(freq: u32, orig: u32, greatest: u32, ticks: u64) -> u32 {
    let way = greatest.saturating_sub(orig);
    let above = freq.saturating_sub(orig);
    let new = if ticks >= 50_000 {
        max(orig, freq.saturating_sub(max(above / 5, 10)))
    } else if ticks >= 4000 && freq >= greatest {
        freq.saturating_add(min(way / 10 + 1, 5))
    } else if ticks >= 4000 {
        freq.saturating_add(max(way / 10 + 1, 5))
    } else if freq >= greatest {
        freq.saturating_add(min(way / 5 + 1, 10))
    } else {
        freq.saturating_add(max(way / 5 + 1, 10))
    };
    min(new, 99_999_999)
}
