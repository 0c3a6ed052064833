ghost use Rattle.std.specs.Prelude.{◌≡◌, ◌++◌, ◌≤◌, ◌∷◌, [], ◌+◌, IsFalse, IsTrue, IfSome, IfOk, OnOk, OnErr, false, length, nat_le, option_map};
ghost use Rattle.chew_spec_dictionary.specs.Call as calls;
ghost use Rattle.chew_spec_dictionary.specs.History.{after, answer, is_keepers, start_of};
ghost use Rattle.chew_spec_dictionary.specs.Look.{hits_of};
ghost use Rattle.chew_spec_dictionary.specs.System.{row_of};
ghost use Rattle.chew_spec_layers.specs.Layers.{frozen_marks, map_in};
ghost use Rattle.chew_spec_layers.specs.Overlay.{overlay};
ghost use Rattle.chew_spec_layers.specs.Standing.{StandForMap};
ghost use Rattle.chew_plain.specs.Call.{call_of, entry_of, reply_of};
ghost use Rattle.chew_layers.specs.Contents.{row_said};
ghost use Rattle.chew_layers.specs.OneMore.{IsOneMore};

use crate::held::Said;
use crate::layers::Layers;
use chew_plain::{Call, Entry, Hits, Reply};
use chew_syllable::{Key, NoMemory, Phrase, Run};

impl Layers {
    /// Makes a call that is proper and not one of the keeper's. `NoMemory` also comes where no journal of one entry more fits
    /// into memory.
    pub fn apply(&mut self, who: u32, call: &Call) -> Result<Reply, NoMemory>
        requires proper { IsTrue (calls.is_proper (call_of call.now)) }
        requires user { is_keepers (call_of call.now) ≡ false }
        ensures ok { IfOk result (λ reply. reply_of reply ≡ (answer (after (start_of self.old.start) self.old.journal) (call_of call.now)).reply) }
        ensures journal { OnOk result (self.new.journal ≡ self.old.journal ++ record { who = who; call = call_of call.now } ∷ []) }
        ensures start { self.new.start ≡ self.old.start }
        ensures base { self.new.base ≡ self.old.base }
        ensures frozen { self.new.frozen ≡ self.old.frozen }
        ensures installed { self.new.installed ≡ self.old.installed }
        ensures stands { StandForMap self.new }
        ensures few { length (map_in self.new) ≤ 200_000 }
        ensures below { length (overlay self.new.base (frozen_marks self.new.frozen)) ≤ 200_000 }
        ensures err { OnErr result (self.new ≡ self.old) }
    {
        self.keeps();
        let entry = Entry {
            who,
            call: call.copy(),
        };
        match call {
            Call::Look(run) => self.look(entry, run),
            Call::Learn {
                key,
                phrase,
                orig,
                peak,
            } => self.learn(entry, key, phrase, *orig, *peak),
            Call::Forget { key, phrase } => self.forget(entry, key, phrase),
            Call::Hide { key, phrase } => self.hide(entry, key, phrase),
            Call::Freeze => unreachable!(),
            Call::Install(_) => unreachable!(),
        }
    }

    /// All rows of all intervals of the run.
    fn look(&mut self, entry: Entry, run: &Run) -> Result<Reply, NoMemory>
        requires call { (entry_of entry).call ≡ calls.Look run.now }
        ensures ok { IfOk result (λ reply. reply_of reply ≡ calls.Rows (hits_of (map_in self.old) run.now)) }
        ensures left { OnOk result (IsOneMore self.old self.new (entry_of entry)) }
        ensures err { OnErr result (self.new ≡ self.old) }
    {
        self.keeps();
        let hits = self.held().look(self.alloc, run)?;
        self.note(entry)?;
        Ok(Reply::Rows(Hits::of(hits)))
    }

    /// What the layers say of a pair.
    pub(crate) fn said(&self, key: &Key, phrase: &Phrase) -> Option<Said>
        ensures value { option_map (row_said key.now phrase.now) result ≡ row_of (map_in self.now) key.now phrase.now }
        ensures range { IfSome result (λ said. said.freq ≤ 99_999_999) }
    {
        self.held().said(key, phrase)
    }

    /// How many pairs the layers hold.
    pub(crate) fn count(&self) -> u32
        ensures value { result ≡ length (map_in self.now) }
        ensures few { result ≤ 200_000 }
    {
        self.count
    }

    /// Whether no new pair is added.
    pub(crate) fn is_full(&self) -> bool
        ensures value { result ≡ nat_le self.now.start.cap (length (map_in self.now)) }
        ensures room { IsFalse result → length (map_in self.now) + 1 ≤ 200_000 }
    {
        self.count >= self.cap
    }
}
