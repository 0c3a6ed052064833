ghost use Rattle.std.specs.Prelude.{◌≡◌, ◌≤◌, IfErr, IfOk, IsTrue, List};
ghost use Rattle.chew_spec_syllable.specs.Row.{Row};
ghost use Rattle.chew_spec_editor.specs.Invariant.{is_editor};
ghost use Rattle.chew_spec_editor.specs.PhraseKeys.{press_add, press_forget, press_hide};
ghost use Rattle.chew_editor.specs.Outcome.{outcome_of};
ghost use Rattle.chew_editor.specs.State.{state_of};

use crate::changes::change;
use crate::learning::{key_and_phrase, learn_shown};
use crate::outcome::Outcome;
use crate::settling::ring;
use crate::state::State;
use chew_plain::{Call, Lexicon};
use chew_script::Note;
use chew_syllable::NoMemory;
use std::alloc::Global;

/// The phrase of so many cells from the cursor on is learnt.
#[tactic(auto, unfolding(chew_spec_editor::specs::PhraseKeys::press_add, chew_spec_editor::specs::PhraseKeys::press_about))]
pub(crate) fn press_add<L: Lexicon>(
    alloc: Global,
    state: State,
    system: &L,
    len: u8,
) -> Result<Outcome, (State, NoMemory)>
    requires some { 1 ≤ len }
    requires few { len ≤ 11 }
    requires editor { IsTrue (is_editor (state_of state)) }
    ensures ok { IfOk result (λ outcome. outcome_of outcome ≡ press_add (L.rows system.now) (state_of state) len) }
    ensures kept { IfErr result (λ refused. refused.0 ≡ state) }
{
    if !state.typing.preedit.has_sounds_ahead(len) {
        return ring(alloc, state);
    }
    let place = usize::from(state.typing.preedit.cursor());
    match learn_shown(alloc, system, &state, place, usize::from(len)) {
        Ok(learn) => change(alloc, state, learn, Note::Added),
        Err(refused) => Err((state, refused)),
    }
}

/// The phrase of so many cells from the cursor on is forgotten.
#[tactic(auto, unfolding(chew_spec_editor::specs::PhraseKeys::press_forget, chew_spec_editor::specs::PhraseKeys::press_about))]
pub(crate) fn press_forget(
    alloc: Global,
    state: State,
    len: u8,
) -> Result<Outcome, (State, NoMemory)>
    requires some { 1 ≤ len }
    requires few { len ≤ 11 }
    requires editor { IsTrue (is_editor (state_of state)) }
    ensures ok { (system : List Row) → IfOk result (λ outcome. outcome_of outcome ≡ press_forget system (state_of state) len) }
    ensures kept { IfErr result (λ refused. refused.0 ≡ state) }
{
    if !state.typing.preedit.has_sounds_ahead(len) {
        return ring(alloc, state);
    }
    let place = usize::from(state.typing.preedit.cursor());
    match key_and_phrase(alloc, &state, place, usize::from(len)) {
        Ok((key, phrase)) => change(alloc, state, Call::Forget { key, phrase }, Note::Forgot),
        Err(refused) => Err((state, refused)),
    }
}

/// The phrase of so many cells from the cursor on is hidden.
#[tactic(auto, unfolding(chew_spec_editor::specs::PhraseKeys::press_hide, chew_spec_editor::specs::PhraseKeys::press_about))]
pub(crate) fn press_hide(alloc: Global, state: State, len: u8) -> Result<Outcome, (State, NoMemory)>
    requires some { 1 ≤ len }
    requires few { len ≤ 11 }
    requires editor { IsTrue (is_editor (state_of state)) }
    ensures ok { (system : List Row) → IfOk result (λ outcome. outcome_of outcome ≡ press_hide system (state_of state) len) }
    ensures kept { IfErr result (λ refused. refused.0 ≡ state) }
{
    if !state.typing.preedit.has_sounds_ahead(len) {
        return ring(alloc, state);
    }
    let place = usize::from(state.typing.preedit.cursor());
    match key_and_phrase(alloc, &state, place, usize::from(len)) {
        Ok((key, phrase)) => change(alloc, state, Call::Hide { key, phrase }, Note::Hidden),
        Err(refused) => Err((state, refused)),
    }
}
