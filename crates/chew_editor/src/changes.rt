ghost use Rattle.std.specs.Prelude.{◌≡◌, ◌∷◌, [], IfOk, IfErr, List, map};
ghost use Rattle.chew_spec_syllable.specs.Row.{Row};
ghost use Rattle.chew_spec_editor.specs.Pending.{with_buffer};
ghost use Rattle.chew_spec_editor.specs.Press.{asking};
ghost use Rattle.chew_plain.specs.Call.{call_of};
ghost use Rattle.chew_script.specs.Notes.{note_of};
ghost use Rattle.chew_editor.specs.Outcome.{outcome_of};
ghost use Rattle.chew_editor.specs.State.{state_of};

use crate::asking::{Changes, asking};
use crate::outcome::Outcome;
use crate::state::State;
use chew_plain::Call;
use chew_script::{Note, Text};
use chew_syllable::NoMemory;
use std::alloc::Global;

/// The key makes one change in the dictionary, and looks up all runs as they are.
pub(crate) fn change(
    alloc: Global,
    state: State,
    call: Call,
    note: Note,
) -> Result<Outcome, (State, NoMemory)>
    ensures ok { (system : List Row) → IfOk result (λ outcome. outcome_of outcome
        ≡ asking system (record (with_buffer (state_of state) (state_of state).buffer) { changes = call_of call ∷ []; note = note_of note })) }
    ensures kept { IfErr result (λ refused. refused.0 ≡ state) }
{
    match alone(alloc, call) {
        Ok(calls) => {
            let typing = state.typing.copy();
            let changes = Changes {
                calls,
                commit: Text::new(alloc),
                note,
            };
            asking(alloc, state, typing, changes)
        }
        Err(refused) => Err((state, refused)),
    }
}

/// The call by itself.
pub(crate) fn alone(alloc: Global, call: Call) -> Result<Vec<Call>, NoMemory>
    ensures { IfOk result (λ calls. map call_of calls.items ≡ call_of call ∷ []) }
{
    let mut calls = Vec::new(alloc);
    calls.push(call)?;
    Ok(calls)
}
