//! Calls whose replies are compared.

ghost use Rattle.std.specs.Prelude.{◌≡◌, ◌≢◌, ◌≤◌, IsTrue, length};
ghost use Rattle.chew_spec_syllable.specs.Row.{is_pair};
ghost use Rattle.chew_spec_shared.specs.SharedCalls.{IsOf};

use crate::looks::{Place, look};
use crate::replies::{Outcome, is_learned, is_nothing, is_one_hit, is_outcome};
use chew_cell::Pass;
use chew_samples::{CE, SHI, syllable};
use chew_shared::Shared;
use chew_shared_samples::pair;
use chew_syllable::{Key, Phrase, Run};
use std::process::Abort;
use std::sync::Wait;
use std::test::Fail;
use std::thread::Threads;

/// A phrase of two syllables, and the run of these.
#[derive(Drop)]
pub(crate) struct Sample {
    key: Key,
    phrase: Phrase,
    run: Run,
    ghost pair: { IsTrue (is_pair key phrase) },
    ghost long: { 2 ≤ length key },
}

impl Sample {
    /// The text under ㄘㄜˋ ㄕˋ.
    pub(crate) fn of(text: &str) -> Result<Sample, Fail> {
        let codes = [syllable(CE), syllable(SHI)];
        let (Some((key, phrase)), Some(run)) = (pair(&codes, text), Run::of(&codes)) else {
            return Err(Fail::new("not a pair"));
        };
        if key.len() < 2 {
            return Err(Fail::new("one syllable"));
        }
        Ok(Sample { key, phrase, run })
    }
}

/// Learns the phrase, which then has this frequency and time.
pub(crate) fn learn<R: Abort + Wait>(
    rt: &R,
    shared: &Shared,
    pass: Pass,
    sample: &Sample,
    orig: u32,
    wanted: (u32, u64),
) -> Pass
    requires ours { IsOf shared.now pass }
    requires context { pass.who ≢ 0 }
    requires order { orig ≤ 9318 }
    ensures ours { IsOf shared.now result }
    ensures who { result.who ≡ pass.who }
{
    let (pass, learned) = shared.learn(rt, pass, &sample.key, &sample.phrase, orig, 9318);
    assert!(rt; is_learned(&learned, wanted));
    pass
}

/// Forgets the phrase.
pub(crate) fn forget<R: Abort + Wait>(rt: &R, shared: &Shared, pass: Pass, sample: &Sample) -> Pass
    requires ours { IsOf shared.now pass }
    requires context { pass.who ≢ 0 }
    ensures ours { IsOf shared.now result }
    ensures who { result.who ≡ pass.who }
{
    let (pass, forgot) = shared.forget(rt, pass, &sample.key, &sample.phrase);
    assert!(rt; is_outcome(&forgot, Outcome::Forgot));
    pass
}

/// Hides the phrase, with this outcome.
pub(crate) fn hide<R: Abort + Wait>(
    rt: &R,
    shared: &Shared,
    pass: Pass,
    sample: &Sample,
    wanted: Outcome,
) -> Pass
    requires ours { IsOf shared.now pass }
    requires context { pass.who ≢ 0 }
    ensures ours { IsOf shared.now result }
    ensures who { result.who ≡ pass.who }
{
    let (pass, hid) = shared.hide(rt, pass, &sample.key, &sample.phrase);
    assert!(rt; is_outcome(&hid, wanted));
    pass
}

/// Looks up both syllables, and finds the phrase alone, with this frequency, and hidden or not.
pub(crate) fn find<R: Abort + Threads + Wait + Sync>(
    rt: &R,
    place: Place,
    shared: &Shared,
    pass: Pass,
    sample: &Sample,
    wanted: (u32, bool),
) -> Pass
    requires ours { IsOf shared.now pass }
    requires context { pass.who ≢ 0 }
    ensures ours { IsOf shared.now result }
    ensures who { result.who ≡ pass.who }
{
    let (pass, found) = look(rt, place, shared, pass, &sample.run);
    assert!(rt; is_one_hit(&found, (0, 2, sample.phrase.text(), wanted.0, wanted.1)));
    pass
}

/// Looks up both syllables, and finds nothing.
pub(crate) fn find_nothing<R: Abort + Threads + Wait + Sync>(
    rt: &R,
    place: Place,
    shared: &Shared,
    pass: Pass,
    sample: &Sample,
) -> Pass
    requires ours { IsOf shared.now pass }
    requires context { pass.who ≢ 0 }
    ensures ours { IsOf shared.now result }
    ensures who { result.who ≡ pass.who }
{
    let (pass, found) = look(rt, place, shared, pass, &sample.run);
    assert!(rt; is_nothing(&found));
    pass
}
