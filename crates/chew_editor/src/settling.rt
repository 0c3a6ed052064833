ghost use Rattle.std.specs.Prelude.{◌≡◌, [], IfErr, IfOk};
ghost use Rattle.chew_spec_editor.specs.Editor as editor;
ghost use Rattle.chew_spec_editor.specs.Press.{Done, bell, quiet};
ghost use Rattle.chew_layouts.specs.Layouts.{layout_of};
ghost use Rattle.chew_script.specs.Notes.{note_of};
ghost use Rattle.chew_editor.specs.Outcome.{outcome_of};
ghost use Rattle.chew_editor.specs.State.{editor_of, state_of};

use crate::line::line_of;
use crate::outcome::Outcome;
use crate::state::{State, Typing};
use chew_candidates::Window;
use chew_layouts::Layout;
use chew_script::{Note, Text};
use chew_syllable::NoMemory;
use std::alloc::Global;

/// The state with this typed, which commits nothing.
pub(crate) fn settle(
    alloc: Global,
    state: State,
    typing: Typing,
    note: Note,
) -> Result<Outcome, (State, NoMemory)>
    ensures ok { IfOk result (λ outcome. outcome_of outcome
        ≡ Done (editor_of typing state.pieces.items state.window) (editor.line_of (editor_of typing state.pieces.items state.window) [] (note_of note))) }
    ensures kept { IfErr result (λ refused. refused.0 ≡ state) }
{
    match line_of(
        alloc,
        &typing,
        &state.pieces,
        &state.window,
        Text::new(alloc),
        note,
    ) {
        Ok(line) => {
            let settled = State {
                typing,
                pieces: state.pieces,
                window: state.window,
            };
            Ok(Outcome::Done(settled, line))
        }
        Err(refused) => Err((state, refused)),
    }
}

/// The state as it was, and a bell.
pub(crate) fn ring(alloc: Global, state: State) -> Result<Outcome, (State, NoMemory)>
    ensures ok { IfOk result (λ outcome. outcome_of outcome ≡ bell (state_of state)) }
    ensures kept { IfErr result (λ refused. refused.0 ≡ state) }
{
    let typing = state.typing.copy();
    settle(alloc, state, typing, Note::Bell)
}

/// The state with this layout, which commits nothing.
pub(crate) fn relay(
    alloc: Global,
    state: State,
    layout: Layout,
    note: Note,
) -> Result<Outcome, (State, NoMemory)>
    ensures ok { IfOk result (λ outcome. outcome_of outcome
        ≡ Done (record (state_of state) { layout = layout_of layout })
        (editor.line_of (record (state_of state) { layout = layout_of layout }) [] (note_of note))) }
    ensures kept { IfErr result (λ refused. refused.0 ≡ state) }
{
    let typing = state.typing.with_layout(layout);
    settle(alloc, state, typing, note)
}

/// The state with this window or none, which commits nothing.
pub(crate) fn rewindow(
    alloc: Global,
    state: State,
    window: Option<Window>,
) -> Result<Outcome, (State, NoMemory)>
    ensures ok { IfOk result (λ outcome. outcome_of outcome ≡ quiet (record (state_of state) { window = window })) }
    ensures kept { IfErr result (λ refused. refused.0 ≡ state) }
{
    match line_of(
        alloc,
        &state.typing,
        &state.pieces,
        &window,
        Text::new(alloc),
        Note::Quiet,
    ) {
        Ok(line) => {
            let settled = State {
                typing: state.typing,
                pieces: state.pieces,
                window,
            };
            Ok(Outcome::Done(settled, line))
        }
        Err(refused) => Err((state, refused)),
    }
}
