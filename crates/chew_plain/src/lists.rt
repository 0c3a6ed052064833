ghost use Rattle.std.specs.Prelude.{◌≡◌, [], IsTrue, IfOk, OnOk, OnErr, is_some, not};
ghost use Rattle.chew_spec_dictionary.specs.Dictionary.{is_map, put_row, without};
ghost use Rattle.chew_spec_dictionary.specs.System.{row_of, rows_under};

use crate::places;
use crate::ranked::Ranked;
use chew_syllable::{Key, KeyRow, NoMemory, Phrase};
use std::alloc::Global;
use std::collections::BTreeMap;
use std::marker::Model;

/// The rows of a map: for each key a list of its rows, by their phrases' bytes.
#[derive(Debug, Drop)]
pub(crate) struct Lists {
    lists: BTreeMap<Ranked, Vec<KeyRow>>,
    alloc: Global,
}

impl Model for Lists {
    ghost use Rattle.std.specs.Prelude.{IsTrue, List};
    ghost use Rattle.chew_spec_syllable.specs.Row.{Row};
    ghost use Rattle.chew_spec_dictionary.specs.Dictionary.{is_map};
    ghost use Rattle.chew_plain.specs.ByKey.{all_rows, are_own};

    ghost Value = { List Row };

    ghost view = { λ rows. all_rows (λ list. list.items) rows.lists.entries };

    ghost invariant = { λ rows. IsTrue (is_map (all_rows (λ list. list.items) rows.lists.entries)) × IsTrue (are_own (λ list. list.items) rows.lists.entries) };
}

impl Lists {
    /// No rows.
    pub(crate) fn new(alloc: Global) -> Lists
        ensures { result ≡ [] }
    {
        Lists {
            lists: BTreeMap::new(alloc),
            alloc,
        }
    }

    /// Where it takes memory from.
    pub(crate) fn allocator(&self) -> Global {
        self.alloc
    }

    /// The rows of a key.
    pub(crate) fn under(&self, key: &Key) -> &[KeyRow]
        ensures value { result.now ≡ rows_under self.now key.now }
        ensures map { IsTrue (is_map self.now) }
    {
        // The length tells that the keys ascend.
        let _lists = self.lists.len();
        match self.lists.get(&Ranked::of(key)) {
            Some(list) => list.as_slice(),
            None => &[],
        }
    }

    /// Puts a row in, in place of an earlier one of its pair. Whether there was none.
    pub(crate) fn put(&mut self, row: KeyRow) -> Result<bool, NoMemory>
        ensures new { IfOk result (λ new. new ≡ not (is_some (row_of self.old row.key row.phrase))) }
        ensures ok { OnOk result (self.new ≡ put_row row self.old) }
        ensures err { OnErr result (self.new ≡ self.old) }
        ensures map { IsTrue (is_map self.old) }
    {
        match self.lists.get_mut(&Ranked::of(&row.key)) {
            Some(list) => places::put(list, row),
            None => {
                self.add(row)?;
                Ok(true)
            }
        }
    }

    /// Adds a row whose key has no list yet.
    fn add(&mut self, row: KeyRow) -> Result<(), NoMemory>
        requires { rows_under self.now row.key ≡ [] }
        ensures ok { OnOk result (self.new ≡ put_row row self.old) }
        ensures err { OnErr result (self.new ≡ self.old) }
    {
        let key = Ranked::of(&row.key);
        let list = vec![in self.alloc; row]?;
        self.lists.insert(key, list)?;
        Ok(())
    }

    /// Takes the row of a pair out. Whether there was one.
    pub(crate) fn take_out(&mut self, key: &Key, phrase: &Phrase) -> bool
        ensures held { result ≡ is_some (row_of self.old key.now phrase.now) }
        ensures left { self.new ≡ without key.now phrase.now self.old }
        ensures map { IsTrue (is_map self.old) }
    {
        let held = self.take_from_list(key, phrase);
        self.drop_bare(key);
        held
    }

    /// Takes the row of a pair out, and leaves the key its list. Whether there was one.
    fn take_from_list(&mut self, key: &Key, phrase: &Phrase) -> bool
        ensures held { result ≡ is_some (row_of self.old key.now phrase.now) }
        ensures left { self.new ≡ without key.now phrase.now self.old }
        ensures map { IsTrue (is_map self.old) }
    {
        match self.lists.get_mut(&Ranked::of(key)) {
            Some(list) => places::take_out(list, key, phrase),
            None => false,
        }
    }

    /// Takes the key's list out where it has no rows.
    fn drop_bare(&mut self, key: &Key)
        ensures { self.new ≡ self.old }
    {
        let ranked = Ranked::of(key);
        if let Some(list) = self.lists.get(&ranked) {
            if list.as_slice().is_empty() {
                let _list = self.lists.remove(&ranked);
            }
        }
    }
}
