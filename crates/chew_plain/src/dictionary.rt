ghost use Rattle.std.specs.Prelude.{◌≡◌, ℕ, ◌+◌, ◌<◌, ◌≤◌, ◌^◌, IsFalse, IsTrue, IfOk, IfErr, OnOk, OnErr, length, max, nat_le};
ghost use Rattle.std.specs.Option.{option_copied};
ghost use Rattle.chew_spec_syllable.specs.Row.{is_pair};
ghost use Rattle.chew_spec_dictionary.specs.Call.{Rows};
ghost use Rattle.chew_spec_dictionary.specs.Dictionary.{first_freq, forget, held_freq, hid, hide, is_map, learn, learned, put_pair};
ghost use Rattle.chew_spec_dictionary.specs.HiddenPairs.{shown_rows};
ghost use Rattle.chew_spec_dictionary.specs.Look.{hits_of};
ghost use Rattle.chew_spec_dictionary.specs.System.{greatest, peak_of, row_of};
ghost use Rattle.chew_plain.specs.Call.{reply_of};

use crate::frequency::next_freq;
use crate::hidden::{HIDDEN_TIME, is_hidden};
use crate::hits::Hits;
use crate::look::look;
use crate::pairs::Pairs;
use crate::reply::Reply;
use chew_syllable::{Key, KeyRow, NoMemory, Phrase, Run};
use std::cmp::{max, min};
use std::marker::Model;

/// The latest time of a learn.
pub const LATEST_LEARN: u64 = u64::MAX - 1;

/// The user's dictionary: its pairs, how many learns came before, and the number of pairs from which on no new one is
/// added.
#[derive(Debug, Drop)]
pub(crate) struct Dictionary {
    pub(crate) pairs: Pairs,
    pub(crate) life: u64,
    pub(crate) cap: u32,
}

impl Model for Dictionary {
    ghost use Rattle.chew_spec_dictionary.specs.Dictionary.{Dictionary as State};

    ghost Value = { State };

    ghost view = { λ d. record { pairs = d.pairs; life = d.life; cap = d.cap } };
}

impl Dictionary {
    /// All rows of all intervals of the run.
    pub(crate) fn look(&self, run: &Run) -> Result<Reply, NoMemory>
        ensures { IfOk result (λ reply. reply_of reply ≡ Rows (hits_of self.now.pairs run.now)) }
    {
        let hits = look(&self.pairs, run.list())?;
        Ok(Reply::Rows(Hits::of(hits)))
    }

    /// Learns a pair.
    pub(crate) fn learn(
        &mut self,
        key: &Key,
        phrase: &Phrase,
        orig: u32,
        peak: u32,
    ) -> Result<Reply, NoMemory>
        requires pair { IsTrue (is_pair key.now phrase.now) }
        requires order { orig ≤ peak }
        requires range { peak ≤ 99_999_999 }
        ensures ok { IfOk result (λ reply. reply_of reply ≡ (learn self.old key.now phrase.now orig peak).reply) }
        ensures left { OnOk result (self.new ≡ (learn self.old key.now phrase.now orig peak).left) }
        ensures err { OnErr result (self.new ≡ self.old) }
    {
        match self.learnt_freq(key, phrase, orig, peak) {
            Ok(freq) => {
                let time = min(self.life, LATEST_LEARN);
                self.put(key, phrase, freq, time)?;
                self.life = self.life.saturating_add(1);
                Ok(Reply::Learned { freq, time })
            }
            Err(reply) => Ok(reply),
        }
    }

    /// Forgets a pair.
    pub(crate) fn forget(&mut self, key: &Key, phrase: &Phrase) -> Reply
        ensures reply { reply_of result ≡ (forget self.old key.now phrase.now).reply }
        ensures left { self.new ≡ (forget self.old key.now phrase.now).left }
    {
        if self.pairs.take_out(key, phrase) {
            Reply::Forgot
        } else {
            Reply::NotThere
        }
    }

    /// Hides a pair.
    pub(crate) fn hide(&mut self, key: &Key, phrase: &Phrase) -> Result<Reply, NoMemory>
        requires pair { IsTrue (is_pair key.now phrase.now) }
        ensures ok { IfOk result (λ reply. reply_of reply ≡ (hide self.old key.now phrase.now).reply) }
        ensures left { OnOk result (self.new ≡ (hide self.old key.now phrase.now).left) }
        ensures err { OnErr result (self.new ≡ self.old) }
    {
        match self.hidden_freq(key, phrase) {
            Ok(freq) => {
                self.put(key, phrase, freq, HIDDEN_TIME)?;
                Ok(Reply::Hid)
            }
            Err(reply) => Ok(reply),
        }
    }

    /// The frequency that a learn gives the pair; as an error the reply to a learn that changes nothing.
    fn learnt_freq(&self, key: &Key, phrase: &Phrase, orig: u32, peak: u32) -> Result<u32, Reply>
        requires order { orig ≤ peak }
        requires range { peak ≤ 99_999_999 }
        ensures ok { IfOk result (λ freq. learn self.now key.now phrase.now orig peak ≡ learned self.now key.now phrase.now freq) }
        ensures room { IfOk result (λ freq. (time : ℕ) → length (put_pair self.now key.now phrase.now freq time) < 2 ^ 32) }
        ensures range { IfOk result (λ freq. freq ≤ 99_999_999) }
        ensures err { IfErr result (λ reply. learn self.now key.now phrase.now orig peak ≡ record { left = self.now; reply = reply_of reply }) }
    {
        match self.find(key, phrase) {
            Some(row) => Ok(self.held_freq(row, orig, peak)),
            None => {
                if self.is_full() {
                    Err(Reply::Full)
                } else {
                    Ok(first_freq(orig))
                }
            }
        }
    }

    /// The frequency of a pair that is hidden now; as an error the reply to a hide that changes nothing.
    fn hidden_freq(&self, key: &Key, phrase: &Phrase) -> Result<u32, Reply>
        ensures ok { IfOk result (λ freq. hide self.now key.now phrase.now ≡ hid self.now key.now phrase.now freq) }
        ensures room { IfOk result (λ freq. (time : ℕ) → length (put_pair self.now key.now phrase.now freq time) < 2 ^ 32) }
        ensures range { IfOk result (λ freq. freq ≤ 99_999_999) }
        ensures err { IfErr result (λ reply. hide self.now key.now phrase.now ≡ record { left = self.now; reply = reply_of reply }) }
    {
        match self.find(key, phrase) {
            Some(row) => {
                if is_hidden(row) {
                    Err(Reply::NotThere)
                } else {
                    Ok(row.freq)
                }
            }
            None => {
                if self.is_full() {
                    Err(Reply::Full)
                } else {
                    Ok(0)
                }
            }
        }
    }

    /// The row of a pair.
    fn find(&self, key: &Key, phrase: &Phrase) -> Option<&KeyRow>
        ensures value { option_copied result ≡ row_of self.now.pairs key.now phrase.now }
        ensures map { IsTrue (is_map self.now.pairs) }
        ensures few { length self.now.pairs < 2 ^ 32 }
    {
        self.pairs.find(key, phrase)
    }

    /// Whether no new pair is added.
    fn is_full(&self) -> bool
        ensures value { result ≡ nat_le self.now.cap (length self.now.pairs) }
        ensures room { IsFalse result → length self.now.pairs + 1 < 2 ^ 32 }
    {
        self.pairs.len() >= self.cap
    }

    /// The frequency of a pair that is held, once it is learnt.
    fn held_freq(&self, row: &KeyRow, orig: u32, peak: u32) -> u32
        requires order { orig ≤ peak }
        requires range { peak ≤ 99_999_999 }
        ensures value { result ≡ held_freq self.now row.now orig peak }
        ensures range { result ≤ 99_999_999 }
    {
        if is_hidden(row) {
            return first_freq(orig);
        }
        let own = self.greatest_shown(&row.key);
        next_freq(
            row.freq,
            orig,
            max(max(orig, peak), own),
            self.life.saturating_sub(row.time),
        )
    }

    /// The greatest frequency of the pairs of a key that are not hidden, or 0.
    fn greatest_shown(&self, key: &Key) -> u32
        ensures value { result ≡ peak_of (shown_rows self.now.pairs) key.now }
        ensures range { result ≤ 99_999_999 }
    {
        greatest_shown(self.pairs.under(key))
    }

    /// Puts a pair in, in place of an earlier row of it.
    fn put(&mut self, key: &Key, phrase: &Phrase, freq: u32, time: u64) -> Result<(), NoMemory>
        requires pair { IsTrue (is_pair key.now phrase.now) }
        requires range { freq ≤ 99_999_999 }
        requires room { length (put_pair self.now key.now phrase.now freq time) < 2 ^ 32 }
        ensures ok { OnOk result (self.new ≡ record self.old { pairs = put_pair self.old key.now phrase.now freq time }) }
        ensures err { OnErr result (self.new ≡ self.old) }
    {
        let row = KeyRow {
            key: key.copy(),
            phrase: phrase.copy(),
            freq,
            time,
        };
        self.pairs.put(row)
    }
}

/// The frequency of a pair that is new or was hidden.
fn first_freq(orig: u32) -> u32
    ensures { result ≡ first_freq orig }
{
    if orig == 0 { 1 } else { orig }
}

/// The greatest frequency of those of these rows that are not hidden, or 0.
fn greatest_shown(rows: &[KeyRow]) -> u32
    ensures value { result ≡ greatest (shown_rows rows.now) }
    ensures range { result ≤ 99_999_999 }
{
    let mut greatest = 0;
    for row in rows {
        if !is_hidden(row) {
            greatest = max(greatest, row.freq);
        }
    }
    greatest
}
