ghost use Rattle.std.specs.Prelude.{◌≡◌, IsSome, IsTrue, IfOk, OnOk, OnErr};
ghost use Rattle.chew_spec_syllable.specs.Row.{is_pair};
ghost use Rattle.chew_spec_dictionary.specs.Call as calls;
ghost use Rattle.chew_spec_dictionary.specs.Dictionary.{forget};
ghost use Rattle.chew_spec_dictionary.specs.System.{row_of};
ghost use Rattle.chew_spec_layers.specs.Layers.{dictionary_in, map_in};
ghost use Rattle.chew_plain.specs.Call.{entry_of, reply_of};
ghost use Rattle.chew_layers.specs.OneMore.{IsOneMore};

use crate::change::Change;
use crate::layers::Layers;
use chew_buffer::Mark;
use chew_plain::{Entry, Reply};
use chew_syllable::{Key, NoMemory, Phrase};

impl Layers {
    /// Forgets a pair.
    pub(crate) fn forget(
        &mut self,
        entry: Entry,
        key: &Key,
        phrase: &Phrase,
    ) -> Result<Reply, NoMemory>
        requires call { (entry_of entry).call ≡ calls.Forget key.now phrase.now }
        requires pair { IsTrue (is_pair key.now phrase.now) }
        ensures ok { IfOk result (λ reply. reply_of reply ≡ (forget (dictionary_in self.old) key.now phrase.now).reply) }
        ensures left { OnOk result (IsOneMore self.old self.new (entry_of entry)) }
        ensures err { OnErr result (self.new ≡ self.old) }
    {
        self.keeps();
        match self.said(key, phrase) {
            Some(_) => {
                self.bury(entry, key, phrase)?;
                Ok(Reply::Forgot)
            }
            None => {
                self.note(entry)?;
                Ok(Reply::NotThere)
            }
        }
    }

    /// Gives a pair that is held a grave.
    fn bury(&mut self, entry: Entry, key: &Key, phrase: &Phrase) -> Result<(), NoMemory>
        requires call { (entry_of entry).call ≡ calls.Forget key.now phrase.now }
        requires pair { IsTrue (is_pair key.now phrase.now) }
        requires held { IsSome (row_of (map_in self.old) key.now phrase.now) }
        ensures left { OnOk result (IsOneMore self.old self.new (entry_of entry)) }
        ensures err { OnErr result (self.new ≡ self.old) }
    {
        self.keeps();
        let change = Change {
            mark: Mark::Grave,
            life: self.life,
            count: self.count - 1,
        };
        self.mark(entry, key, phrase, change)?;
        Ok(())
    }
}
