ghost use Rattle.std.specs.Prelude.{◌≡◌, ◌+◌, ◌≤◌, ℕ, List, IsTrue, IfOk, IfSome, length, option_map};
ghost use Rattle.chew_spec_dictionary.specs.Dictionary.{is_map};
ghost use Rattle.chew_spec_dictionary.specs.HiddenPairs.{shown_rows};
ghost use Rattle.chew_spec_dictionary.specs.Look.{codes_at, hits_of};
ghost use Rattle.chew_spec_dictionary.specs.System.{peak_of, row_of};
ghost use Rattle.chew_spec_layers.specs.Mark.{is_in_range, is_layer, row_of_mark};
ghost use Rattle.chew_buffer.specs.Marks.{meaning};
ghost use Rattle.chew_plain.specs.Look.{hits_at};
ghost use Rattle.chew_layers.specs.Contents.{row_said, rows_held};
ghost use Rattle.chew_layers.specs.GreatestFrequency.{greatest_of_shown};

use crate::seen::visible_hits;
use chew_buffer::{Buffer, Mark};
use chew_plain::{Hit, Interval, Lexicon, intervals, sort_hits};
use chew_syllable::{Key, NoMemory, Phrase, Run, Syllable};
use chew_trie_read::Trie;
use std::alloc::Global;
use std::cmp::max;

/// Three layers, lent, to be read.
#[derive(Clone, Copy)]
pub(crate) struct Held<'a> {
    pub(crate) base: &'a Trie,
    pub(crate) frozen: &'a Buffer,
    pub(crate) fresh: &'a Buffer,
}

/// What is said of a pair that is held.
#[derive(Clone, Copy, Debug, Drop)]
pub(crate) struct Said {
    pub(crate) freq: u32,
    pub(crate) time: u64,
}

impl Held<'_> {
    /// All rows of all intervals of a run.
    pub(crate) fn look(self, alloc: Global, run: &Run) -> Result<Vec<Hit>, NoMemory>
        ensures { IfOk result (λ hits. hits.items ≡ hits_of (rows_held self.entry) run.now) }
    {
        let list = intervals(alloc, run.list().len())?;
        let mut hits = Vec::new(alloc);
        for at in list.as_slice() {
            let mut shown = hits_at(self, alloc, run.list(), *at)?;
            hits.append(&mut shown)?;
        }
        Ok(hits)
    }

    /// What is said of a pair: by the newest layer that has a mark for it, or else by the base.
    pub(crate) fn said(self, key: &Key, phrase: &Phrase) -> Option<Said>
        ensures value { option_map (row_said key.now phrase.now) result ≡ row_of (rows_held self.entry) key.now phrase.now }
        ensures range { IfSome result (λ said. said.freq ≤ 99_999_999) }
    {
        self.keeps();
        match self.fresh.get(key, phrase) {
            Some(mark) => said_by(mark),
            None => match self.frozen.get(key, phrase) {
                Some(mark) => said_by(mark),
                None => said_by_base(self.base, key, phrase),
            },
        }
    }

    /// The greatest frequency of the pairs of a key that are not hidden, or 0.
    pub(crate) fn greatest_shown(self, alloc: Global, key: &Key) -> Result<u32, NoMemory>
        ensures value { IfOk result (λ freq. freq ≡ peak_of (shown_rows (rows_held self.entry)) key.now) }
        ensures range { IfOk result (λ freq. freq ≤ 99_999_999) }
    {
        self.keeps();
        let _syllables = key.list();
        let hits = visible_hits(self, alloc, key, 0)?;
        Ok(greatest_shown(hits.as_slice()))
    }

    /// What three layers keep. It does nothing, and is there for proofs alone.
    fn keeps(self)
        ensures map { IsTrue (is_map self.entry.base.now) }
        ensures frozen { IsTrue (is_layer self.entry.frozen.now) }
        ensures fresh { IsTrue (is_layer self.entry.fresh.now) }
    {
        let _total = self.base.total();
        let _frozen = self.frozen.marks();
        let _fresh = self.fresh.marks();
    }
}

/// What a mark says of its pair.
fn said_by(mark: Mark) -> Option<Said>
    requires range { IsTrue (is_in_range (meaning mark)) }
    ensures range { IfSome result (λ said. said.freq ≤ 99_999_999) }
    ensures value { (key phrase : List ℕ) → option_map (row_said key phrase) result ≡ row_of_mark key phrase (meaning mark) }
{
    match mark {
        Mark::Live { freq, time } => Some(Said { freq, time }),
        Mark::Grave => None,
    }
}

/// What the base says of a pair.
fn said_by_base(base: &Trie, key: &Key, phrase: &Phrase) -> Option<Said>
    ensures value { option_map (row_said key.now phrase.now) result ≡ row_of base.now key.now phrase.now }
    ensures range { IfSome result (λ said. said.freq ≤ 99_999_999) }
{
    let _total = base.total();
    let places = base.places(key.list());
    for place in places.start..places.end {
        let row = base.row_at(place);
        if row.phrase == phrase.text() {
            return Some(Said {
                freq: row.freq,
                time: row.time,
            });
        }
    }
    None
}

/// The hits of an interval of a run, in the order in which they are shown.
fn hits_at(
    held: Held<'_>,
    alloc: Global,
    run: &[Syllable],
    at: Interval,
) -> Result<Vec<Hit>, NoMemory>
    requires short { length run.now ≤ 39 }
    requires inside { at.start + at.len ≤ length run.now }
    requires some { 1 ≤ at.len }
    requires few { at.len ≤ 11 }
    ensures { IfOk result (λ hits. hits.items ≡ hits_at (rows_held held.entry) run.now at) }
{
    held.keeps();
    let key = key_at(run, at);
    let mut hits = visible_hits(held, alloc, &key, at.start as u8)?;
    sort_hits(&mut hits)?;
    Ok(hits)
}

/// The syllables of an interval, as a key.
fn key_at(run: &[Syllable], at: Interval) -> Key
    requires inside { at.start + at.len ≤ length run.now }
    requires some { 1 ≤ at.len }
    requires few { at.len ≤ 11 }
    ensures { result ≡ codes_at run.now at }
{
    Key::of_some(&run[at.start..at.start + at.len])
}

/// The greatest frequency of those of these hits that are not hidden, or 0.
fn greatest_shown(hits: &[Hit]) -> u32
    ensures value { result ≡ greatest_of_shown hits.now }
    ensures range { result ≤ 99_999_999 }
{
    let mut greatest = 0;
    for hit in hits {
        if !hit.hidden {
            greatest = max(greatest, hit.freq);
        }
    }
    greatest
}
