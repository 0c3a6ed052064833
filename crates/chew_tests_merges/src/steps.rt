//! Calls in a row, of a user and of who keeps the layers, each with what it is answered.

ghost use Rattle.std.specs.Prelude.{◌≡◌, IfSome, IsTrue, false};
ghost use Rattle.chew_spec_dictionary.specs.Call.{is_proper};
ghost use Rattle.chew_spec_dictionary.specs.History.{is_keepers};
ghost use Rattle.chew_plain.specs.Call.{call_of};

use crate::replies::{is_forgot, is_learned, is_not_there, is_nothing, is_one_hit};
use chew_layer_samples::{InLayers, forget, learn, look};
use chew_layers::Need;
use chew_plain::{Call, Reply};
use chew_syllable::Syllable;
use std::process::Abort;
use std::test::Fail;

/// The system's greatest frequency of each key.
const PEAK: u32 = 9318;

/// A call, and what it is answered.
#[derive(Clone, Copy)]
pub(crate) enum Step<'a> {
    /// A look finds nothing.
    Misses(&'a [Syllable]),
    /// A look finds one phrase of all syllables, which is not hidden, with this frequency.
    Finds(&'a [Syllable], &'a str, u32),
    /// A phrase is learnt that has this frequency in the system; it has this other one then, and this time.
    Learns {
        key: &'a [Syllable],
        text: &'a str,
        orig: u32,
        freq: u32,
        time: u64,
    },
    /// A phrase that is held is forgotten.
    Forgets(&'a [Syllable], &'a str),
    /// A phrase that is not held is to be forgotten.
    ForgetsNothing(&'a [Syllable], &'a str),
    /// What so many calls changed waits for a new base.
    Freezes(u64),
    /// What waits has this life, and a merge of it so many rows.
    Waits {
        life: u64,
        rows: u32,
    },
    /// The merge of what waits is installed.
    Installs,
    /// This is needed, so that the base has all.
    Needs(Need),
}

/// What the layers reply to a call, if it is one.
pub(crate) fn reply_to(layers: &mut InLayers, call: Option<Call>) -> Result<Reply, Fail>
    requires proper { IfSome call (λ call. IsTrue (is_proper (call_of call))) }
    requires user { IfSome call (λ call. is_keepers (call_of call) ≡ false) }
{
    match call {
        Some(call) => Ok(layers.make(&call)?),
        None => Err(Fail::new("no call")),
    }
}

/// What the layers reply to a look.
pub(crate) fn look_up(layers: &mut InLayers, run: &[Syllable]) -> Result<Reply, Fail> {
    reply_to(layers, look(run))
}

/// What the layers reply to a learn.
fn learn_pair(
    layers: &mut InLayers,
    key: &[Syllable],
    text: &str,
    orig: u32,
) -> Result<Reply, Fail> {
    reply_to(layers, learn(key, text, orig, PEAK))
}

/// What the layers reply to a forget.
fn forget_pair(layers: &mut InLayers, key: &[Syllable], text: &str) -> Result<Reply, Fail> {
    reply_to(layers, forget(key, text))
}

/// Whether a freeze tells this number.
fn is_frozen(layers: &mut InLayers, upto: u64) -> Result<bool, Fail> {
    Ok(layers.freeze()? == upto)
}

/// Whether what waits has this life and, once it is merged, so many rows.
fn is_waiting(layers: &InLayers, life: u64, rows: u32) -> Result<bool, Fail> {
    if layers.waiting_life() != Some(life) {
        return Ok(false);
    }
    match layers.merged()? {
        Some(map) => Ok(map.total() == rows),
        None => Ok(false),
    }
}

/// Merges what waits and installs it. Whether something waited.
fn is_installed(layers: &mut InLayers) -> Result<bool, Fail> {
    Ok(layers.install()?)
}

/// Makes a call. Whether it is answered so.
fn is_answered(layers: &mut InLayers, step: Step<'_>) -> Result<bool, Fail> {
    match step {
        Step::Misses(run) => Ok(is_nothing(&look_up(layers, run)?)),
        Step::Finds(run, text, freq) => {
            let reply = look_up(layers, run)?;
            Ok(is_one_hit(&reply, run.len(), text, freq))
        }
        Step::Learns {
            key,
            text,
            orig,
            freq,
            time,
        } => Ok(is_learned(&learn_pair(layers, key, text, orig)?, (freq, time))),
        Step::Forgets(key, text) => Ok(is_forgot(&forget_pair(layers, key, text)?)),
        Step::ForgetsNothing(key, text) => Ok(is_not_there(&forget_pair(layers, key, text)?)),
        Step::Freezes(upto) => is_frozen(layers, upto),
        Step::Waits { life, rows } => is_waiting(layers, life, rows),
        Step::Installs => is_installed(layers),
        Step::Needs(need) => Ok(layers.need() == need),
    }
}

/// Makes calls in a row. The place of the first that is answered otherwise.
fn first_wrong(layers: &mut InLayers, steps: &[Step<'_>]) -> Result<Option<usize>, Fail> {
    for (place, step) in steps.iter().enumerate() {
        if !is_answered(layers, *step)? {
            return Ok(Some(place));
        }
    }
    Ok(None)
}

/// All of these are answered so, one after the other.
pub(crate) fn are_answered(
    rt: &impl Abort,
    layers: &mut InLayers,
    steps: &[Step<'_>],
) -> Result<(), Fail> {
    assert_eq!(rt; first_wrong(layers, steps)?, None);
    Ok(())
}
