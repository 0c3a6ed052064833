ghost use Rattle.std.specs.Prelude.{◌≡◌, ◌≤◌, ◌+◌, IsSome, IsTrue, OnOk, OnErr, length};
ghost use Rattle.chew_spec_layers.specs.Layers.{map_in, marked_by, noted};
ghost use Rattle.chew_spec_layers.specs.Mark.{is_proper_mark};
ghost use Rattle.chew_spec_layers.specs.Standing.{StandForMap};
ghost use Rattle.chew_buffer.specs.Marks.{marked_of};
ghost use Rattle.chew_plain.specs.Call.{entry_of};

use crate::layers::{FrozenAt, Layers};
use chew_buffer::Mark;
use chew_plain::Entry;
use chew_syllable::{Key, NoMemory, Phrase};

/// What a call makes of a dictionary beside its journal.
#[derive(Clone, Copy, Debug, Drop)]
pub(crate) struct Change {
    /// The mark that the call's pair gets.
    pub(crate) mark: Mark,
    /// The life after the call.
    pub(crate) life: u64,
    /// How many pairs there are after the call.
    pub(crate) count: u32,
}

/// For how many entries a call makes room: its own, and where a layer waits that of its install.
pub(crate) fn room_for(waits: Option<FrozenAt>) -> usize
    ensures own { 1 ≤ result }
    ensures install { IsSome waits → 2 ≤ result }
{
    if waits.is_some() { 2 } else { 1 }
}

impl Layers {
    /// Adds an entry that changes no pair.
    pub(crate) fn note(&mut self, entry: Entry) -> Result<(), NoMemory>
        requires stands { StandForMap (noted self.old (entry_of entry)) }
        ensures ok { OnOk result (self.new ≡ noted self.old (entry_of entry)) }
        ensures few { OnOk result (length (map_in self.new) ≤ 200_000) }
        ensures err { OnErr result (self.new ≡ self.old) }
    {
        self.journal.reserve(room_for(self.waits))?;
        self.journal.push_reserved(entry);
        Ok(())
    }

    /// Adds an entry that changes a pair.
    pub(crate) fn mark(
        &mut self,
        entry: Entry,
        key: &Key,
        phrase: &Phrase,
        change: Change,
    ) -> Result<(), NoMemory>
        requires proper { IsTrue (is_proper_mark (marked_of key.now phrase.now change.mark)) }
        requires stands { StandForMap (marked_by self.old (entry_of entry) (marked_of key.now phrase.now change.mark) change.life) }
        requires count { change.count ≡ length (map_in (marked_by self.old (entry_of entry) (marked_of key.now phrase.now change.mark) change.life)) }
        requires few { change.count ≤ 200_000 }
        ensures ok { OnOk result (self.new ≡ marked_by self.old (entry_of entry) (marked_of key.now phrase.now change.mark) change.life) }
        ensures err { OnErr result (self.new ≡ self.old) }
    {
        self.journal.reserve(room_for(self.waits))?;
        self.fresh.set(key, phrase, change.mark)?;
        self.life = change.life;
        self.count = change.count;
        self.journal.push_reserved(entry);
        Ok(())
    }
}
