//! Calls of the user's dictionary, from syllables and a text.

ghost use Rattle.std.specs.Prelude.{◌≡◌, IfSome, IsTrue};
ghost use Rattle.chew_spec_syllable.specs.Row.{is_pair};

use chew_plain::{Call, Hits, Plain, Reply};
use chew_syllable::{Key, Phrase, Run, Syllable};
use std::process::Abort;

/// The pair of these syllables and this text.
pub(crate) fn pair(rt: &impl Abort, key: &[Syllable], text: &str) -> (Key, Phrase)
    ensures { IsTrue (is_pair result.0 result.1) }
{
    match pair_of(key, text) {
        Some(pair) => pair,
        None => panic!(rt; "no pair"),
    }
}

/// The pair of these syllables and this text, where they are one.
fn pair_of(key: &[Syllable], text: &str) -> Option<(Key, Phrase)>
    ensures { IfSome result (λ pair. IsTrue (is_pair pair.0 pair.1)) }
{
    let key = Key::of(key)?;
    let Ok(phrase) = Phrase::read(text.as_bytes()) else {
        return None;
    };
    if phrase.characters() != key.len() {
        return None;
    }
    Some((key, phrase))
}

/// Learns a pair.
pub(crate) fn learn(
    rt: &impl Abort,
    plain: &mut Plain,
    key: &[Syllable],
    text: &str,
    orig: u32,
    peak: u32,
) -> Reply {
    assert!(rt; orig <= peak);
    assert!(rt; peak <= 99_999_999);
    let (key, phrase) = pair(rt, key, text);
    let call = Call::Learn {
        key,
        phrase,
        orig,
        peak,
    };
    plain.apply(&call).expect(rt, "memory")
}

/// Forgets a pair.
pub(crate) fn forget(rt: &impl Abort, plain: &mut Plain, key: &[Syllable], text: &str) -> Reply {
    let (key, phrase) = pair(rt, key, text);
    plain
        .apply(&Call::Forget { key, phrase })
        .expect(rt, "memory")
}

/// Hides a pair.
pub(crate) fn hide(rt: &impl Abort, plain: &mut Plain, key: &[Syllable], text: &str) -> Reply {
    let (key, phrase) = pair(rt, key, text);
    assert!(rt; key.len() >= 2);
    plain
        .apply(&Call::Hide { key, phrase })
        .expect(rt, "memory")
}

/// Looks up a run.
pub(crate) fn look(rt: &impl Abort, plain: &mut Plain, run: &[Syllable]) -> Hits {
    let run = Run::of(run).expect(rt, "a run");
    match plain.apply(&Call::Look(run)).expect(rt, "memory") {
        Reply::Rows(hits) => hits,
        _ => panic!(rt; "no rows"),
    }
}

/// A pair is learnt by these frequencies, and has this frequency and time then.
pub(crate) fn learns(
    rt: &impl Abort,
    plain: &mut Plain,
    key: &[Syllable],
    text: &str,
    (orig, peak): (u32, u32),
    (freq, time): (u32, u64),
) {
    let reply = learn(rt, plain, key, text, orig, peak);
    assert!(rt; are_same(&reply, &Reply::Learned { freq, time }), "{text}");
}

/// A forget is answered so.
pub(crate) fn forgets(
    rt: &impl Abort,
    plain: &mut Plain,
    key: &[Syllable],
    text: &str,
    wanted: &Reply,
) {
    assert!(rt; are_same(&forget(rt, plain, key, text), wanted), "{text}");
}

/// A hide is answered so.
pub(crate) fn hides(
    rt: &impl Abort,
    plain: &mut Plain,
    key: &[Syllable],
    text: &str,
    wanted: &Reply,
) {
    assert!(rt; are_same(&hide(rt, plain, key, text), wanted), "{text}");
}

/// The learns that came before, and the pairs.
pub(crate) fn has(rt: &impl Abort, plain: &Plain, life: u64, pairs: u32) {
    assert_eq!(rt; plain.life(), life);
    assert_eq!(rt; plain.pairs(), pairs);
}

/// Whether two replies are the same. None is a look's.
pub(crate) fn are_same(reply: &Reply, other: &Reply) -> bool {
    match reply {
        Reply::Learned { freq, time } => is_learned(other, (*freq, *time)),
        Reply::Full => matches!(other, Reply::Full),
        Reply::Forgot => matches!(other, Reply::Forgot),
        Reply::NotThere => matches!(other, Reply::NotThere),
        Reply::Hid => matches!(other, Reply::Hid),
        _ => false,
    }
}

/// Whether a pair was learnt, with this frequency and time.
fn is_learned(reply: &Reply, wanted: (u32, u64)) -> bool {
    match reply {
        Reply::Learned { freq, time } => (*freq, *time) == wanted,
        _ => false,
    }
}
