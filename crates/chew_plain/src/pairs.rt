ghost use Rattle.std.specs.Prelude.{◌≡◌, ◌<◌, ◌^◌, IsTrue, IfOk, OnOk, OnErr, is_some, length};
ghost use Rattle.std.specs.Option.{option_copied};
ghost use Rattle.chew_spec_syllable.specs.Row.{image_cmp, no_pair_twice};
ghost use Rattle.chew_spec_dictionary.specs.Dictionary.{is_map, put_row, without};
ghost use Rattle.chew_spec_dictionary.specs.Order.{in_order};
ghost use Rattle.chew_spec_dictionary.specs.System.{row_of, rows_under};

use crate::lists::Lists;
use crate::order::sort_rows;
use crate::places;
use chew_syllable::{Key, KeyRow, NoMemory, Phrase};
use std::alloc::Global;
use std::marker::Model;

/// The pairs of the user's dictionary, each with its frequency and its time: fewer than 2^32.
#[derive(Debug, Drop)]
pub(crate) struct Pairs {
    lists: Lists,
    count: u32,
}

impl Model for Pairs {
    ghost use Rattle.std.specs.Prelude.{◌≡◌, List, length};
    ghost use Rattle.chew_spec_syllable.specs.Row.{Row};

    ghost Value = { List Row };

    ghost view = { λ pairs. pairs.lists };

    ghost invariant = { λ pairs. pairs.count ≡ length pairs.lists };
}

impl Pairs {
    /// The pairs of these rows.
    pub(crate) fn of(mut rows: Vec<KeyRow>) -> Result<Pairs, NoMemory>
        requires pairs { IsTrue (no_pair_twice rows.items) }
        requires few { length rows.items < 2 ^ 32 }
        ensures value { IfOk result (λ pairs. pairs ≡ in_order image_cmp rows.items) }
        ensures map { IfOk result (λ pairs. IsTrue (is_map pairs)) }
    {
        sort_rows(&mut rows)?;
        let mut pairs = Pairs {
            lists: Lists::new(*rows.allocator()),
            count: 0,
        };
        for row in rows.as_slice() {
            pairs.put(row.copy())?;
        }
        Ok(pairs)
    }

    /// Where it takes memory from.
    pub(crate) fn allocator(&self) -> Global {
        self.lists.allocator()
    }

    /// How many they are.
    pub(crate) fn len(&self) -> u32
        ensures { result ≡ length self.now }
    {
        self.count
    }

    /// The row of a pair.
    pub(crate) fn find(&self, key: &Key, phrase: &Phrase) -> Option<&KeyRow>
        ensures value { option_copied result ≡ row_of self.now key.now phrase.now }
        ensures map { IsTrue (is_map self.now) }
        ensures few { length self.now < 2 ^ 32 }
    {
        let _count = self.count;
        places::find(self.under(key), key, phrase)
    }

    /// The rows of a key, by their phrases' bytes.
    pub(crate) fn under(&self, key: &Key) -> &[KeyRow]
        ensures value { result.now ≡ rows_under self.now key.now }
        ensures map { IsTrue (is_map self.now) }
    {
        self.lists.under(key)
    }

    /// Puts a row in, in place of an earlier one of its pair.
    pub(crate) fn put(&mut self, row: KeyRow) -> Result<(), NoMemory>
        requires room { length (put_row row self.now) < 2 ^ 32 }
        ensures ok { OnOk result (self.new ≡ put_row row self.old) }
        ensures err { OnErr result (self.new ≡ self.old) }
    {
        if self.lists.put(row)? {
            self.count += 1;
        }
        Ok(())
    }

    /// Takes the row of a pair out. Whether there was one.
    pub(crate) fn take_out(&mut self, key: &Key, phrase: &Phrase) -> bool
        ensures held { result ≡ is_some (row_of self.old key.now phrase.now) }
        ensures left { self.new ≡ without key.now phrase.now self.old }
    {
        let held = self.lists.take_out(key, phrase);
        if held {
            self.count -= 1;
        }
        held
    }
}
