ghost use Rattle.std.specs.Prelude.{◌≡◌, ◌≤◌, ◌<◌, ◌-◌, ◌*◌, ◌^◌, IfOk, All, slice_index, length};
ghost use Rattle.chew_phrasing.specs.Table.{IsSmall, all_behind, behind, end_of_run};

use crate::counts::Counts;
use chew_syllable::NoMemory;
use std::alloc::Global;
use std::marker::Model;

/// An order of a multiset of lengths, up to the end of a run.
#[derive(Clone, Copy, Drop)]
pub(crate) struct Entry {
    /// What the frequencies of its pieces count.
    pub(crate) freq: u64,
    /// The place of what follows the first length, in the level of the syllables that are left there.
    pub(crate) rest: usize,
    /// The differences of the lengths, over all pairs.
    pub(crate) spread: u32,
    /// The multiset.
    pub(crate) counts: Counts,
    /// The first length.
    pub(crate) len: u8,
}

impl Model for Entry {
    ghost use Rattle.std.specs.Prelude.{◌≡◌, length};
    ghost use Rattle.chew_phrasing.specs.Table as spec;

    ghost Value = { spec.Entry };

    ghost view = { λ entry. record {
      counts = entry.counts;
      freq = entry.freq;
      spread = entry.spread;
      len = entry.len;
      rest = entry.rest;
    } };

    ghost inverse = { λ entry. record {
      counts = entry.counts;
      freq = entry.freq;
      spread = entry.spread;
      len = entry.len;
      rest = entry.rest;
    } };

    ghost invariant = { λ entry. length entry.counts ≡ 11 };
}

impl Entry {
    /// The order of no lengths.
    pub(crate) fn end_of_run() -> Entry
        ensures { result ≡ end_of_run }
    {
        Entry {
            counts: Counts::none(),
            freq: 0,
            spread: 0,
            len: 0,
            rest: 0,
        }
    }

    /// This order behind a piece of the length `len`, whose frequency counts `weight`. Its own place is `place`.
    pub(crate) fn behind(&self, len: usize, weight: u64, place: usize) -> Entry
        requires some { 1 ≤ len }
        requires short { len ≤ 11 }
        requires weight { weight < 2 ^ 32 }
        requires small { IsSmall 38 self.now }
        ensures { result ≡ behind len weight place self.now }
    {
        Entry {
            counts: self.counts.one_more(len),
            freq: self.freq + weight,
            spread: self.spread + self.counts.differences(len),
            len: len as u8,
            rest: place,
        }
    }
}

/// Each of these orders behind a piece of the length `len`, whose frequency counts `weight`.
pub(crate) fn all_behind(
    alloc: Global,
    entries: &[Entry],
    len: usize,
    weight: u64,
) -> Result<Vec<Entry>, NoMemory>
    requires some { 1 ≤ len }
    requires short { len ≤ 11 }
    requires weight { weight < 2 ^ 32 }
    requires small { All (IsSmall 38) entries.now }
    ensures { IfOk result (λ all. all.items ≡ all_behind len weight 0 entries.now) }
{
    let mut all = Vec::with_capacity(alloc, entries.len())?;
    for (place, entry) in entries.iter().enumerate() {
        all.push(entry.behind(len, weight, place))?;
    }
    Ok(all)
}
