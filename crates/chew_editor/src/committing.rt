ghost use Rattle.std.specs.Prelude.{◌≡◌, [], IfErr, IfOk, IsTrue, if◌then◌else◌, map};
ghost use Rattle.chew_spec_text.specs.Line.{Quiet};
ghost use Rattle.chew_spec_editor.specs.Editor.{shown_text};
ghost use Rattle.chew_spec_editor.specs.Invariant.{is_editor};
ghost use Rattle.chew_spec_editor.specs.Learning.{learns};
ghost use Rattle.chew_spec_editor.specs.Press.{press_enter};
ghost use Rattle.chew_plain.specs.Call.{call_of};
ghost use Rattle.chew_script.specs.Notes.{note_of};
ghost use Rattle.chew_editor.specs.Outcome.{outcome_of};
ghost use Rattle.chew_editor.specs.State.{state_of};

use crate::asking::{Changes, asking};
use crate::cells_text::shown_text;
use crate::learning::learns;
use crate::move_keys::cell_count;
use crate::outcome::Outcome;
use crate::settling::ring;
use crate::state::State;
use chew_plain::{Call, Lexicon};
use chew_script::Note;
use chew_syllable::NoMemory;
use std::alloc::Global;

/// Enter commits all text, and learns it.
#[tactic(auto, unfolding(chew_spec_editor::specs::Press::press_enter))]
pub(crate) fn press_enter<L: Lexicon>(
    alloc: Global,
    state: State,
    system: &L,
) -> Result<Outcome, (State, NoMemory)>
    requires { IsTrue (is_editor (state_of state)) }
    ensures ok { IfOk result (λ outcome. outcome_of outcome ≡ press_enter (L.rows system.now) (state_of state)) }
    ensures kept { IfErr result (λ refused. refused.0 ≡ state) }
{
    if cell_count(&state.typing.preedit) == 0 {
        return ring(alloc, state);
    }
    match all_changes(alloc, &state, system) {
        Ok(changes) => {
            let mut typing = state.typing.copy();
            typing.preedit.empty();
            asking(alloc, state, typing, changes)
        }
        Err(refused) => Err((state, refused)),
    }
}

/// What the commit of all text changes in the dictionary, and the text.
fn all_changes<L: Lexicon>(alloc: Global, state: &State, system: &L) -> Result<Changes, NoMemory>
    requires { IsTrue (is_editor (state_of state.now)) }
    ensures calls { IfOk result (λ changes. map call_of changes.calls.items
        ≡ (if state.now.typing.settings.learn
        then learns (L.rows system.now) state.now.typing.preedit.cells state.now.typing.preedit.breaks state.now.pieces.items else [])) }
    ensures commit { IfOk result (λ changes. changes.commit ≡ shown_text (state_of state.now)) }
    ensures note { IfOk result (λ changes. note_of changes.note ≡ Quiet) }
{
    let calls = all_learns(alloc, state, system)?;
    let commit = shown_text(alloc, state)?;
    Ok(Changes {
        calls,
        commit,
        note: Note::Quiet,
    })
}

/// What is learnt of all text, where the settings say so.
fn all_learns<L: Lexicon>(alloc: Global, state: &State, system: &L) -> Result<Vec<Call>, NoMemory>
    requires { IsTrue (is_editor (state_of state.now)) }
    ensures { IfOk result (λ calls. map call_of calls.items
        ≡ (if state.now.typing.settings.learn
        then learns (L.rows system.now) state.now.typing.preedit.cells state.now.typing.preedit.breaks state.now.pieces.items else [])) }
{
    if !state.typing.settings.is_learning() {
        return Ok(Vec::new(alloc));
    }
    learns(alloc, system, &state.typing.preedit, &state.pieces)
}
