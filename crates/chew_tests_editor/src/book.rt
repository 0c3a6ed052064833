//! The dictionary of a second reading, and the calls that were made of it.

ghost use Rattle.std.specs.Prelude.{IfSome, IsTrue};
ghost use Rattle.chew_spec_syllable.specs.Row.{is_pair};
ghost use Rattle.chew_spec_dictionary.specs.History.{is_user_call};
ghost use Rattle.chew_plain.specs.Call.{call_of};

use chew_plain::{Call, Entry, Hit, Plain, Reply};
use chew_script::append_entry;
use chew_syllable::{Key, KeyRow, Phrase, Run, Syllable};
use std::test::Fail;

/// A dictionary, and the calls as a trace has them.
#[derive(Drop)]
pub(crate) struct Book {
    pub(crate) plain: Plain,
    pub(crate) calls: Vec<u8>,
}

impl Book {
    /// The rows that a look-up finds.
    pub(crate) fn look(&mut self, run: &[Syllable]) -> Result<Vec<Hit>, Fail> {
        let Some(run) = Run::of(run) else {
            return Err(Fail::new("no run"));
        };
        match self.make(Call::Look(run))? {
            Reply::Rows(hits) => Ok(hits.into_vec()),
            _ => Err(Fail::new("no rows")),
        }
    }

    /// Learns a text, with the system's frequency of the pair and its greatest for the key.
    pub(crate) fn learn(
        &mut self,
        system: &[KeyRow],
        key: &[Syllable],
        text: &str,
    ) -> Result<Reply, Fail> {
        let Some((key, phrase)) = pair(key, text) else {
            return Err(Fail::new("no pair"));
        };
        let mut orig = 0;
        let mut peak = 0;
        for row in system {
            if row.key.list() == key.list() {
                peak = row.freq.max(peak);
                if row.phrase.text() == phrase.text() {
                    orig = row.freq;
                }
            }
        }
        if orig > peak || peak > 99_999_999 {
            return Err(Fail::new("no frequencies"));
        }
        self.make(Call::Learn {
            key,
            phrase,
            orig,
            peak,
        })
    }

    pub(crate) fn forget(&mut self, key: &[Syllable], text: &str) -> Result<Reply, Fail> {
        let Some((key, phrase)) = pair(key, text) else {
            return Err(Fail::new("no pair"));
        };
        self.make(Call::Forget { key, phrase })
    }

    pub(crate) fn hide(&mut self, key: &[Syllable], text: &str) -> Result<Reply, Fail> {
        let Some((key, phrase)) = pair(key, text) else {
            return Err(Fail::new("no pair"));
        };
        if key.len() < 2 {
            return Err(Fail::new("one syllable"));
        }
        self.make(Call::Hide { key, phrase })
    }

    /// Notes a call down, and makes it.
    fn make(&mut self, call: Call) -> Result<Reply, Fail>
        requires { IsTrue (is_user_call (call_of call)) }
    {
        let entry = Entry { who: 1, call };
        append_entry(&mut self.calls, &entry)?;
        Ok(self.plain.apply(&entry.call)?)
    }
}

/// The pair of these syllables and this text, where they are one.
fn pair(key: &[Syllable], text: &str) -> Option<(Key, Phrase)>
    ensures { IfSome result (λ pair. IsTrue (is_pair pair.0 pair.1)) }
{
    let key = Key::of(key)?;
    let Ok(phrase) = Phrase::read(text.as_bytes()) else {
        return None;
    };
    if phrase.characters() != key.len() {
        return None;
    }
    Some((key, phrase))
}
