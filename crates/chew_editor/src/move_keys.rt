ghost use Rattle.std.specs.Prelude.{◌≡◌, ◌≤◌, IfErr, IfOk, length};
ghost use Rattle.chew_spec_editor.specs.Press.{go_to, press_left, press_right};
ghost use Rattle.chew_editor.specs.Outcome.{outcome_of};
ghost use Rattle.chew_editor.specs.State.{state_of};

use crate::outcome::Outcome;
use crate::settling::{ring, settle};
use crate::state::State;
use chew_preedit::Preedit;
use chew_script::Note;
use chew_syllable::NoMemory;
use std::alloc::Global;

/// How many cells there are. The cursor is at most that.
pub(crate) fn cell_count(preedit: &Preedit) -> u8
    ensures value { result ≡ length preedit.now.cells }
    ensures few { result ≤ 39 }
    ensures cursor { preedit.now.cursor ≤ result }
{
    preedit.cells().len() as u8
}

/// The cursor goes to a place.
pub(crate) fn go_to(alloc: Global, state: State, place: u8) -> Result<Outcome, (State, NoMemory)>
    requires { place ≤ length state.typing.preedit.cells }
    ensures ok { IfOk result (λ outcome. outcome_of outcome ≡ go_to (state_of state) place) }
    ensures kept { IfErr result (λ refused. refused.0 ≡ state) }
{
    let mut typing = state.typing.copy();
    typing.preedit.move_to(place);
    settle(alloc, state, typing, Note::Quiet)
}

/// The cursor goes back by a cell.
#[tactic(auto, unfolding(chew_spec_editor::specs::Press::press_left))]
pub(crate) fn press_left(alloc: Global, state: State) -> Result<Outcome, (State, NoMemory)>
    ensures ok { IfOk result (λ outcome. outcome_of outcome ≡ press_left (state_of state)) }
    ensures kept { IfErr result (λ refused. refused.0 ≡ state) }
{
    let _count = cell_count(&state.typing.preedit);
    let cursor = state.typing.preedit.cursor();
    if cursor == 0 {
        return ring(alloc, state);
    }
    go_to(alloc, state, cursor - 1)
}

/// The cursor goes on by a cell.
#[tactic(auto, unfolding(chew_spec_editor::specs::Press::press_right))]
pub(crate) fn press_right(alloc: Global, state: State) -> Result<Outcome, (State, NoMemory)>
    ensures ok { IfOk result (λ outcome. outcome_of outcome ≡ press_right (state_of state)) }
    ensures kept { IfErr result (λ refused. refused.0 ≡ state) }
{
    let cursor = state.typing.preedit.cursor();
    if cursor < cell_count(&state.typing.preedit) {
        return go_to(alloc, state, cursor + 1);
    }
    ring(alloc, state)
}

/// The cursor goes behind the last cell.
pub(crate) fn press_end(alloc: Global, state: State) -> Result<Outcome, (State, NoMemory)>
    ensures ok { IfOk result (λ outcome. outcome_of outcome ≡ go_to (state_of state) (length state.typing.preedit.cells)) }
    ensures kept { IfErr result (λ refused. refused.0 ≡ state) }
{
    let count = cell_count(&state.typing.preedit);
    go_to(alloc, state, count)
}
