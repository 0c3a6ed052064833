ghost use Rattle.std.specs.Prelude.{◌≡◌, IfErr, IfOk, map, option_to_list};
ghost use Rattle.chew_spec_dictionary.specs.Call as dictionary;
ghost use Rattle.chew_spec_preedit.specs.PlacedRun.{run_at};
ghost use Rattle.chew_spec_editor.specs.Press.{Ask, opening, press_down, window_place};
ghost use Rattle.chew_plain.specs.Call.{call_of};
ghost use Rattle.chew_editor.specs.Outcome.{outcome_of};
ghost use Rattle.chew_editor.specs.State.{state_of};

use crate::asked::Asked;
use crate::move_keys::cell_count;
use crate::outcome::Outcome;
use crate::settling::ring;
use crate::state::State;
use chew_plain::Call;
use chew_preedit::Preedit;
use chew_script::{Note, Text};
use chew_syllable::NoMemory;
use std::alloc::Global;

/// Down opens the candidates of a syllable.
#[tactic(auto, unfolding(chew_spec_editor::specs::Press::press_down))]
pub(crate) fn press_down(alloc: Global, state: State) -> Result<Outcome, (State, NoMemory)>
    ensures ok { IfOk result (λ outcome. outcome_of outcome ≡ press_down (state_of state)) }
    ensures kept { IfErr result (λ refused. refused.0 ≡ state) }
{
    let place = window_place(&state.typing.preedit);
    if !state.typing.preedit.has_sound(usize::from(place)) {
        return ring(alloc, state);
    }
    open(alloc, state, place)
}

/// The place of the candidates: the cursor, or the last cell where the cursor is at the end.
fn window_place(preedit: &Preedit) -> u8
    ensures { result ≡ window_place preedit.now }
{
    let cursor = preedit.cursor();
    if cursor < cell_count(preedit) {
        cursor
    } else {
        cursor.saturating_sub(1)
    }
}

/// The key looks up the run at a place, where the window opens then.
fn open(alloc: Global, state: State, place: u8) -> Result<Outcome, (State, NoMemory)>
    ensures ok { IfOk result (λ outcome. outcome_of outcome ≡ Ask (opening (state_of state) place)) }
    ensures kept { IfErr result (λ refused. refused.0 ≡ state) }
{
    match look_at(alloc, &state.typing.preedit, place) {
        Ok(calls) => Ok(Outcome::Ask(Asked {
            state,
            calls,
            change_count: 0,
            commit: Text::new(alloc),
            note: Note::Quiet,
            opens: Some(place),
        })),
        Err(refused) => Err((state, refused)),
    }
}

/// A look-up of the run at a place, where there is one.
fn look_at(alloc: Global, preedit: &Preedit, place: u8) -> Result<Vec<Call>, NoMemory>
    ensures { IfOk result (λ calls. map call_of calls.items ≡ map (λ run. dictionary.Look run.codes) (option_to_list (run_at preedit.now.cells place))) }
{
    let mut calls = Vec::new(alloc);
    if let Some(run) = preedit.run_at(place) {
        calls.push(Call::Look(run.codes))?;
    }
    Ok(calls)
}
