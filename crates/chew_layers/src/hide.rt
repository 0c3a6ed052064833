ghost use Rattle.std.specs.Prelude.{◌≡◌, ◌≤◌, ℕ, ◌+◌, IsTrue, IfOk, OnOk, OnErr, length};
ghost use Rattle.chew_spec_syllable.specs.Row.{is_pair};
ghost use Rattle.chew_spec_dictionary.specs.Call as calls;
ghost use Rattle.chew_spec_dictionary.specs.Dictionary.{hide, put_pair};
ghost use Rattle.chew_spec_layers.specs.Layers.{dictionary_in};
ghost use Rattle.chew_plain.specs.Call.{entry_of, reply_of};
ghost use Rattle.chew_layers.specs.OneMore.{IsHide, IsOneMore};

use crate::change::Change;
use crate::layers::Layers;
use crate::seen::is_hidden;
use chew_buffer::Mark;
use chew_plain::{Entry, HIDDEN_TIME, Reply};
use chew_syllable::{Key, NoMemory, Phrase};

impl Layers {
    /// Hides a pair.
    pub(crate) fn hide(
        &mut self,
        entry: Entry,
        key: &Key,
        phrase: &Phrase,
    ) -> Result<Reply, NoMemory>
        requires call { (entry_of entry).call ≡ calls.Hide key.now phrase.now }
        requires pair { IsTrue (is_pair key.now phrase.now) }
        ensures ok { IfOk result (λ reply. reply_of reply ≡ (hide (dictionary_in self.old) key.now phrase.now).reply) }
        ensures left { OnOk result (IsOneMore self.old self.new (entry_of entry)) }
        ensures err { OnErr result (self.new ≡ self.old) }
    {
        self.keeps();
        match self.said(key, phrase) {
            Some(said) => {
                if is_hidden(key, said.time) {
                    self.note(entry)?;
                    return Ok(Reply::NotThere);
                }
                let count = self.count();
                self.hide_with(entry, key, phrase, said.freq, count)
            }
            None => {
                if self.is_full() {
                    self.note(entry)?;
                    return Ok(Reply::Full);
                }
                let count = self.count() + 1;
                self.hide_with(entry, key, phrase, 0, count)
            }
        }
    }

    /// Gives a pair this frequency and the time of a hidden one.
    fn hide_with(
        &mut self,
        entry: Entry,
        key: &Key,
        phrase: &Phrase,
        freq: u32,
        count: u32,
    ) -> Result<Reply, NoMemory>
        requires hide { IsHide self.old (entry_of entry) key.now phrase.now freq }
        requires pair { IsTrue (is_pair key.now phrase.now) }
        requires range { freq ≤ 99_999_999 }
        requires count { (time : ℕ) → count ≡ length (put_pair (dictionary_in self.old) key.now phrase.now freq time) }
        requires few { count ≤ 200_000 }
        ensures ok { IfOk result (λ reply. reply_of reply ≡ calls.Hid) }
        ensures left { OnOk result (IsOneMore self.old self.new (entry_of entry)) }
        ensures err { OnErr result (self.new ≡ self.old) }
    {
        self.keeps();
        let change = Change {
            mark: Mark::Live {
                freq,
                time: HIDDEN_TIME,
            },
            life: self.life,
            count,
        };
        self.mark(entry, key, phrase, change)?;
        Ok(Reply::Hid)
    }
}
