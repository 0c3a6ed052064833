ghost use Rattle.std.specs.Prelude.{◌≡◌, ◌≤◌, ℕ, List, ◌+◌, IsTrue, IfOk, OnOk, OnErr, length, max};
ghost use Rattle.chew_spec_syllable.specs.Row.{is_pair};
ghost use Rattle.chew_spec_dictionary.specs.Call as calls;
ghost use Rattle.chew_spec_dictionary.specs.Dictionary.{first_freq, held_freq, learn, put_pair, time_of_learn};
ghost use Rattle.chew_spec_layers.specs.Layers.{dictionary_in};
ghost use Rattle.chew_plain.specs.Call.{entry_of, reply_of};
ghost use Rattle.chew_layers.specs.Contents.{row_said};
ghost use Rattle.chew_layers.specs.OneMore.{IsLearn, IsOneMore};

use crate::change::Change;
use crate::held::Said;
use crate::layers::Layers;
use crate::seen::is_hidden;
use chew_buffer::Mark;
use chew_plain::{Entry, LATEST_LEARN, Reply, next_freq};
use chew_syllable::{Key, NoMemory, Phrase};
use std::cmp::{max, min};

impl Layers {
    /// Learns a pair.
    pub(crate) fn learn(
        &mut self,
        entry: Entry,
        key: &Key,
        phrase: &Phrase,
        orig: u32,
        peak: u32,
    ) -> Result<Reply, NoMemory>
        requires call { (entry_of entry).call ≡ calls.Learn key.now phrase.now orig peak }
        requires pair { IsTrue (is_pair key.now phrase.now) }
        requires order { orig ≤ peak }
        requires range { peak ≤ 99_999_999 }
        ensures ok { IfOk result (λ reply. reply_of reply ≡ (learn (dictionary_in self.old) key.now phrase.now orig peak).reply) }
        ensures left { OnOk result (IsOneMore self.old self.new (entry_of entry)) }
        ensures err { OnErr result (self.new ≡ self.old) }
    {
        self.keeps();
        match self.said(key, phrase) {
            Some(said) => {
                let freq = self.held_freq(said, key, orig, peak)?;
                let count = self.count();
                self.learn_with(entry, key, phrase, freq, count)
            }
            None => {
                if self.is_full() {
                    self.note(entry)?;
                    return Ok(Reply::Full);
                }
                let count = self.count() + 1;
                self.learn_with(entry, key, phrase, first_freq(orig), count)
            }
        }
    }

    /// The frequency of a pair that is held, once it is learnt.
    fn held_freq(&self, said: Said, key: &Key, orig: u32, peak: u32) -> Result<u32, NoMemory>
        requires order { orig ≤ peak }
        requires range { peak ≤ 99_999_999 }
        requires freq { said.freq ≤ 99_999_999 }
        ensures value { IfOk result (λ freq. (phrase : List ℕ) → freq ≡ held_freq (dictionary_in self.now) (row_said key.now phrase said) orig peak) }
        ensures range { IfOk result (λ freq. freq ≤ 99_999_999) }
    {
        if is_hidden(key, said.time) {
            return Ok(first_freq(orig));
        }
        let own = self.held().greatest_shown(self.alloc, key)?;
        Ok(next_freq(
            said.freq,
            orig,
            max(max(orig, peak), own),
            self.life.saturating_sub(said.time),
        ))
    }

    /// Gives a pair this frequency and the life as its time.
    fn learn_with(
        &mut self,
        entry: Entry,
        key: &Key,
        phrase: &Phrase,
        freq: u32,
        count: u32,
    ) -> Result<Reply, NoMemory>
        requires learn { IsLearn self.old (entry_of entry) key.now phrase.now freq }
        requires pair { IsTrue (is_pair key.now phrase.now) }
        requires range { freq ≤ 99_999_999 }
        requires count { (time : ℕ) → count ≡ length (put_pair (dictionary_in self.old) key.now phrase.now freq time) }
        requires few { count ≤ 200_000 }
        ensures ok { IfOk result (λ reply. reply_of reply ≡ calls.Learned freq (time_of_learn (dictionary_in self.old))) }
        ensures left { OnOk result (IsOneMore self.old self.new (entry_of entry)) }
        ensures err { OnErr result (self.new ≡ self.old) }
    {
        self.keeps();
        let time = min(self.life, LATEST_LEARN);
        let change = Change {
            mark: Mark::Live { freq, time },
            life: self.life.saturating_add(1),
            count,
        };
        self.mark(entry, key, phrase, change)?;
        Ok(Reply::Learned { freq, time })
    }
}

/// The frequency of a pair that is new or was hidden.
fn first_freq(orig: u32) -> u32
    ensures value { result ≡ first_freq orig }
    ensures range { result ≤ max 1 orig }
{
    if orig == 0 { 1 } else { orig }
}
