ghost use Rattle.std.specs.Prelude.{◌≡◌, ◌≤◌, IfSome, IsSome, IsTrue, length, true};
ghost use Rattle.chew_spec_syllable.specs.Row.{is_pair};
ghost use Rattle.chew_spec_dictionary.specs.Call as calls;
ghost use Rattle.chew_spec_dictionary.specs.History.{is_user_call};
ghost use Rattle.chew_plain.specs.Call.{call_of};

use chew_plain::Call;
use chew_syllable::{Key, Phrase, Run, Syllable};
use std::marker::Model;

/// The pair of these syllables and this text, where they are one.
pub fn pair(key: &[Syllable], text: &str) -> Option<(Key, Phrase)>
    ensures some { is_pair key.now text.now ≡ true → IsSome result }
    ensures value { IfSome result (λ pair. (pair.0 ≡ key.now) × (pair.1 ≡ text.now)) }
    ensures pair { IfSome result (λ pair. IsTrue (is_pair pair.0 pair.1)) }
{
    let key = Key::of(key)?;
    let Ok(phrase) = Phrase::read(text.as_bytes()) else {
        return None;
    };
    if phrase.characters() != key.list().len() {
        return None;
    }
    Some((key, phrase))
}

/// A call that any context may make.
#[derive(Drop)]
pub struct UserCall {
    call: Call,
}

impl Model for UserCall {
    ghost use Rattle.std.specs.Prelude.{IsTrue};
    ghost use Rattle.chew_spec_dictionary.specs.Call as spec;
    ghost use Rattle.chew_spec_dictionary.specs.History.{is_user_call};
    ghost use Rattle.chew_plain.specs.Call.{call_of};

    ghost Value = { spec.Call };

    ghost view = { λ c. call_of c.call };

    ghost invariant = { λ c. IsTrue (is_user_call (call_of c.call)) };
}

impl UserCall {
    /// To look up a run.
    pub fn look(run: Run) -> UserCall
        ensures { result ≡ calls.Look run }
    {
        let _codes = run.list();
        UserCall {
            call: Call::Look(run),
        }
    }

    /// To learn a pair.
    pub fn learn(key: Key, phrase: Phrase, orig: u32, peak: u32) -> UserCall
        requires pair { IsTrue (is_pair key phrase) }
        requires order { orig ≤ peak }
        requires range { peak ≤ 99_999_999 }
        ensures { result ≡ calls.Learn key phrase orig peak }
    {
        UserCall {
            call: Call::Learn {
                key,
                phrase,
                orig,
                peak,
            },
        }
    }

    /// To forget a pair.
    pub fn forget(key: Key, phrase: Phrase) -> UserCall
        requires { IsTrue (is_pair key phrase) }
        ensures { result ≡ calls.Forget key phrase }
    {
        UserCall {
            call: Call::Forget { key, phrase },
        }
    }

    /// To hide a pair of at least two syllables.
    pub fn hide(key: Key, phrase: Phrase) -> UserCall
        requires pair { IsTrue (is_pair key phrase) }
        requires long { 2 ≤ length key }
        ensures { result ≡ calls.Hide key phrase }
    {
        UserCall {
            call: Call::Hide { key, phrase },
        }
    }

    /// The call.
    pub fn call(&self) -> &Call
        ensures value { call_of result.now ≡ self.now }
        ensures user { IsTrue (is_user_call (call_of result.now)) }
    {
        &self.call
    }
}
