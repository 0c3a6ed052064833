//! Which calls anybody but the keeper may make.
#![tactic(auto)]

ghost use Rattle.std.specs.Prelude.{◌≡◌};
ghost use Rattle.chew_spec_syllable.specs.Row.{is_pair};
ghost use Rattle.chew_spec_dictionary.specs.History.{is_user_call};
ghost use Rattle.chew_plain.specs.Call.{call_of};

use chew_plain::Call;
use chew_syllable::{GREATEST_FREQ, Key, Phrase, RUN_LIMIT};

/// Whether a phrase has as many characters as its key has syllables.
fn are_pair(key: &Key, phrase: &Phrase) -> bool
    ensures { result ≡ is_pair key.now phrase.now }
{
    let syllables = key.list();
    let _text = phrase.text();
    phrase.characters() == syllables.len()
}

/// Whether a call is one that anybody but the keeper may make: a look-up of at most 39 syllables, a learn of a pair whose
/// frequencies are in order and in range, a forget of a pair, or a hide of a pair of at least two syllables.
pub fn is_of_user(call: &Call) -> bool
    ensures { result ≡ is_user_call (call_of call.now) }
{
    match call {
        Call::Look(run) => run.list().len() <= RUN_LIMIT,
        Call::Learn {
            key,
            phrase,
            orig,
            peak,
        } => {
            if !are_pair(key, phrase) {
                return false;
            }
            if *orig > *peak {
                return false;
            }
            *peak <= GREATEST_FREQ
        }
        Call::Forget { key, phrase } => are_pair(key, phrase),
        Call::Hide { key, phrase } => {
            if !are_pair(key, phrase) {
                return false;
            }
            key.len() >= 2
        }
        Call::Freeze => false,
        Call::Install(_) => false,
    }
}
