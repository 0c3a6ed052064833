//! Calls of users, from syllables and a text.

ghost use Rattle.std.specs.Prelude.{◌≡◌, ◌≤◌, IfSome, IsSome, IsTrue, false, length, true};
ghost use Rattle.chew_spec_syllable.specs.Row.{is_pair};
ghost use Rattle.chew_spec_dictionary.specs.Call as calls;
ghost use Rattle.chew_spec_dictionary.specs.History.{is_keepers};
ghost use Rattle.chew_plain.specs.Call.{call_of};

use chew_plain::Call;
use chew_syllable::{GREATEST_FREQ, Key, Phrase, Run, Syllable};

/// The pair of these syllables and this text, where they are one.
fn pair(key: &[Syllable], text: &str) -> Option<(Key, Phrase)>
    ensures some { is_pair key.now text.now ≡ true → IsSome result }
    ensures key { IfSome result (λ pair. pair.0 ≡ key.now) }
    ensures phrase { IfSome result (λ pair. pair.1 ≡ text.now) }
    ensures pair { IfSome result (λ pair. IsTrue (is_pair pair.0 pair.1)) }
{
    let key = Key::of(key)?;
    let Ok(phrase) = Phrase::read(text.as_bytes()) else {
        return None;
    };
    if phrase.characters() != key.list().len() {
        return None;
    }
    Some((key, phrase))
}

/// To learn a pair, where the text is a phrase of so many syllables, and the frequencies are in order and in range.
pub fn learn(key: &[Syllable], text: &str, orig: u32, peak: u32) -> Option<Call>
    ensures some { is_pair key.now text.now ≡ true → orig ≤ peak → peak ≤ 99_999_999 → IsSome result }
    ensures value { IfSome result (λ call. call_of call ≡ calls.Learn key.now text.now orig peak) }
    ensures proper { IfSome result (λ call. IsTrue (calls.is_proper (call_of call))) }
    ensures user { IfSome result (λ call. is_keepers (call_of call) ≡ false) }
{
    let (key, phrase) = pair(key, text)?;
    if orig > peak {
        return None;
    }
    if peak > GREATEST_FREQ {
        return None;
    }
    Some(Call::Learn {
        key,
        phrase,
        orig,
        peak,
    })
}

/// To forget a pair, where the text is a phrase of so many syllables.
pub fn forget(key: &[Syllable], text: &str) -> Option<Call>
    ensures some { is_pair key.now text.now ≡ true → IsSome result }
    ensures value { IfSome result (λ call. call_of call ≡ calls.Forget key.now text.now) }
    ensures proper { IfSome result (λ call. IsTrue (calls.is_proper (call_of call))) }
    ensures user { IfSome result (λ call. is_keepers (call_of call) ≡ false) }
{
    let (key, phrase) = pair(key, text)?;
    Some(Call::Forget { key, phrase })
}

/// To hide a pair, where the text is a phrase of so many syllables, at least two.
pub fn hide(key: &[Syllable], text: &str) -> Option<Call>
    ensures some { is_pair key.now text.now ≡ true → 2 ≤ length key.now → IsSome result }
    ensures value { IfSome result (λ call. call_of call ≡ calls.Hide key.now text.now) }
    ensures proper { IfSome result (λ call. IsTrue (calls.is_proper (call_of call))) }
    ensures user { IfSome result (λ call. is_keepers (call_of call) ≡ false) }
{
    if key.len() < 2 {
        return None;
    }
    let (key, phrase) = pair(key, text)?;
    Some(Call::Hide { key, phrase })
}

/// To look up a run, where it has at most 39 syllables.
pub fn look(run: &[Syllable]) -> Option<Call>
    ensures some { length run.now ≤ 39 → IsSome result }
    ensures value { IfSome result (λ call. call_of call ≡ calls.Look run.now) }
    ensures proper { IfSome result (λ call. IsTrue (calls.is_proper (call_of call))) }
    ensures user { IfSome result (λ call. is_keepers (call_of call) ≡ false) }
{
    let run = Run::of(run)?;
    Some(Call::Look(run))
}
