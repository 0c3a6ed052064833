ghost use Rattle.std.specs.Prelude.{◌≡◌, [], map};
ghost use Rattle.chew_plain.specs.Call.{entry_of};
ghost use Rattle.chew_spec_cell.specs.Sight.{IsTurn};

use chew_cell::Chronicle;
use chew_plain::Entry;
use std::alloc::Global;

/// A list of entries, and nothing else.
#[derive(Drop)]
pub struct Journal {
    entries: Vec<Entry>,
}

impl Chronicle for Journal {
    ghost use Rattle.std.specs.Prelude.{[], map};
    ghost use Rattle.chew_plain.specs.Call.{entry_of};

    ghost entries = { λ j. map entry_of j.entries.items };

    ghost start = { λ j. record { pairs = []; life = 0; cap = 0 } };

    fn entries(&self) -> &[Entry] {
        self.entries.as_slice()
    }
}

impl Journal {
    /// One without an entry.
    pub fn new(alloc: Global) -> Journal
        ensures { result.entries.items ≡ [] }
    {
        Journal {
            entries: Vec::new(alloc),
        }
    }

    /// Adds an entry, where there is memory.
    pub fn push(&mut self, entry: Entry)
        ensures { IsTurn entry.who (map entry_of self.old.entries.items) (map entry_of self.new.entries.items) }
    {
        if self.entries.push(entry).is_err() {}
    }
}
