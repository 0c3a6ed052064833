ghost use Rattle.std.specs.Prelude.{◌≡◌, ◌^◌, ◌<◌, ◌≤◌, ◌↔◌, [], IsTrue, OnOk, OnErr, length, option_map};
ghost use Rattle.std.specs.List.{list_all};
ghost use Rattle.chew_spec_syllable.specs.Row.{is_pair};
ghost use Rattle.chew_spec_layers.specs.Mark.{is_layer, is_proper_mark, mark_of, put_mark};
ghost use Rattle.chew_buffer.specs.Marks.{grave_of, live_of, marked_of, marks_under, meaning};

use crate::iter::MarksIter;
use crate::mark::Mark;
use crate::ranked::Ranked;
use chew_syllable::{Key, NoMemory, Phrase, Syllable};
use std::alloc::{AllocError, Global};
use std::collections::BTreeMap;
use std::marker::Model;

/// The marks of a layer: at most one for each pair.
#[derive(Debug, Drop)]
pub struct Buffer {
    marks: BTreeMap<Ranked, Mark>,
}

impl Model for Buffer {
    ghost use Rattle.std.specs.Prelude.{List, IsTrue};
    ghost use Rattle.std.specs.List.{list_all};
    ghost use Rattle.chew_spec_layers.specs.Mark.{Marked, is_layer, is_proper_mark};
    ghost use Rattle.chew_buffer.specs.Marks.{marks_in};

    ghost Value = { List Marked };

    ghost view = { λ buffer. marks_in buffer.marks.entries };

    ghost invariant = { λ buffer. IsTrue (is_layer (marks_in buffer.marks.entries)) × IsTrue (list_all is_proper_mark (marks_in buffer.marks.entries)) };
}

impl Buffer {
    /// No marks. It keeps the allocator, and takes no memory.
    pub fn new(alloc: Global) -> Buffer
        ensures { result ≡ [] }
    {
        Buffer {
            marks: BTreeMap::new(alloc),
        }
    }

    /// Marks a pair as held, in place of an older mark.
    pub fn put(&mut self, key: &Key, phrase: &Phrase, freq: u32, time: u64) -> Result<(), NoMemory>
        requires pair { IsTrue (is_pair key.now phrase.now) }
        requires range { freq ≤ 99_999_999 }
        ensures ok { OnOk result (self.new ≡ put_mark (live_of key.now phrase.now freq time) self.old) }
        ensures err { OnErr result (self.new ≡ self.old) }
    {
        self.set(key, phrase, Mark::Live { freq, time })
    }

    /// Marks a pair as gone, in place of an older mark.
    pub fn bury(&mut self, key: &Key, phrase: &Phrase) -> Result<(), NoMemory>
        requires pair { IsTrue (is_pair key.now phrase.now) }
        ensures ok { OnOk result (self.new ≡ put_mark (grave_of key.now phrase.now) self.old) }
        ensures err { OnErr result (self.new ≡ self.old) }
    {
        self.set(key, phrase, Mark::Grave)
    }

    /// Gives a pair its mark, in place of an older one.
    fn set(&mut self, key: &Key, phrase: &Phrase, mark: Mark) -> Result<(), NoMemory>
        requires proper { IsTrue (is_proper_mark (marked_of key.now phrase.now mark)) }
        ensures ok { OnOk result (self.new ≡ put_mark (marked_of key.now phrase.now mark) self.old) }
        ensures err { OnErr result (self.new ≡ self.old) }
    {
        self.marks.insert(Ranked::of(key, phrase), mark)?;
        Ok(())
    }

    /// The mark of a pair; `None` where it has none.
    pub fn get(&self, key: &Key, phrase: &Phrase) -> Option<Mark>
        ensures value { option_map meaning result ≡ mark_of self.now key.now phrase.now }
        ensures layer { IsTrue (is_layer self.now) }
        ensures proper { IsTrue (list_all is_proper_mark self.now) }
    {
        self.marks.get(&Ranked::of(key, phrase)).copied()
    }

    /// How many pairs have a mark.
    pub fn len(&self) -> usize
        ensures value { result ≡ length self.now }
        ensures fits { result < 2 ^ 63 }
    {
        self.marks.len()
    }

    /// Whether no pair has a mark.
    pub fn is_empty(&self) -> bool
        ensures { IsTrue result ↔ (self.now ≡ []) }
    {
        self.marks.is_empty()
    }

    /// The marks of a key's pairs, in the order of their phrases' bytes. It takes no memory, and doesn't go over the marks of
    /// other keys.
    pub fn marks_of(&self, key: &[Syllable]) -> MarksIter<'_>
        ensures value { result ≡ marks_under self.now key.now }
        ensures layer { IsTrue (is_layer self.now) }
        ensures proper { IsTrue (list_all is_proper_mark self.now) }
    {
        match Key::of(key) {
            Some(key) => MarksIter::of_key(self.marks.range(Ranked::first_of(&key)..), key),
            None => MarksIter::none(self.marks.range(..)),
        }
    }

    /// All marks, in image order. It takes no memory.
    pub fn marks(&self) -> MarksIter<'_>
        ensures value { result ≡ self.now }
        ensures layer { IsTrue (is_layer self.now) }
        ensures proper { IsTrue (list_all is_proper_mark self.now) }
    {
        MarksIter::all(self.marks.range(..))
    }
}

impl Clone for Buffer {
    ghost is_clone = { λ buffer copy. copy ≡ buffer };

    fn clone(&self) -> Result<Buffer, AllocError> {
        Ok(Buffer {
            marks: self.marks.clone()?,
        })
    }
}
