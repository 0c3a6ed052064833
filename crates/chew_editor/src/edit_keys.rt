ghost use Rattle.std.specs.Prelude.{◌≡◌, [], IfErr, IfOk, List};
ghost use Rattle.chew_spec_syllable.specs.Row.{Row};
ghost use Rattle.chew_spec_text.specs.Line.{Quiet};
ghost use Rattle.chew_spec_editor.specs.Press.{asking, press_backspace, press_delete, press_esc, press_tab};
ghost use Rattle.chew_editor.specs.Outcome.{asked_by, outcome_of};
ghost use Rattle.chew_editor.specs.State.{state_of};

use crate::asking::{Changes, asking};
use crate::move_keys::cell_count;
use crate::outcome::Outcome;
use crate::settling::{ring, settle};
use crate::state::{State, Typing};
use chew_script::{Note, Text};
use chew_syllable::{BACKSPACE, NoMemory};
use std::alloc::Global;

/// Looks up all runs of what is typed then, and changes nothing in the dictionary.
pub(crate) fn edit(
    alloc: Global,
    state: State,
    typing: Typing,
) -> Result<Outcome, (State, NoMemory)>
    ensures ok { (system : List Row) → IfOk result (λ outcome. outcome_of outcome ≡ asking system (asked_by typing [] [] Quiet)) }
    ensures kept { IfErr result (λ refused. refused.0 ≡ state) }
{
    let nothing = Changes {
        calls: Vec::new(alloc),
        commit: Text::new(alloc),
        note: Note::Quiet,
    };
    asking(alloc, state, typing, nothing)
}

/// Backspace erases in the layout, else the cell before the cursor.
#[tactic(auto, unfolding(chew_spec_editor::specs::Press::press_backspace, chew_spec_editor::specs::Press::edit))]
pub(crate) fn press_backspace(alloc: Global, state: State) -> Result<Outcome, (State, NoMemory)>
    ensures ok { (system : List Row) → IfOk result (λ outcome. outcome_of outcome ≡ press_backspace system (state_of state)) }
    ensures kept { IfErr result (λ refused. refused.0 ≡ state) }
{
    let mut typing = state.typing.copy();
    if typing.layout.holds() {
        let _step = typing.layout.feed(BACKSPACE);
        return settle(alloc, state, typing, Note::Quiet);
    }
    if typing.preedit.cursor() == 0 {
        return ring(alloc, state);
    }
    typing.preedit.backspace();
    edit(alloc, state, typing)
}

/// Delete takes the cell at the cursor.
#[tactic(auto, unfolding(chew_spec_editor::specs::Press::press_delete, chew_spec_editor::specs::Press::edit))]
pub(crate) fn press_delete(alloc: Global, state: State) -> Result<Outcome, (State, NoMemory)>
    ensures ok { (system : List Row) → IfOk result (λ outcome. outcome_of outcome ≡ press_delete system (state_of state)) }
    ensures kept { IfErr result (λ refused. refused.0 ≡ state) }
{
    let cursor = state.typing.preedit.cursor();
    if cursor < cell_count(&state.typing.preedit) {
        let mut typing = state.typing.copy();
        typing.preedit.delete();
        return edit(alloc, state, typing);
    }
    ring(alloc, state)
}

/// Tab sets or clears a break at the cursor.
#[tactic(auto, unfolding(chew_spec_editor::specs::Press::press_tab, chew_spec_editor::specs::Press::edit))]
pub(crate) fn press_tab(alloc: Global, state: State) -> Result<Outcome, (State, NoMemory)>
    ensures ok { (system : List Row) → IfOk result (λ outcome. outcome_of outcome ≡ press_tab system (state_of state)) }
    ensures kept { IfErr result (λ refused. refused.0 ≡ state) }
{
    if !state.typing.preedit.can_break() {
        return ring(alloc, state);
    }
    let mut typing = state.typing.copy();
    typing.preedit.toggle_break();
    edit(alloc, state, typing)
}

/// Esc clears the layout where it holds something, else the buffer where the settings say so.
#[tactic(auto, unfolding(chew_spec_editor::specs::Press::press_esc, chew_spec_editor::specs::Press::edit))]
pub(crate) fn press_esc(alloc: Global, state: State) -> Result<Outcome, (State, NoMemory)>
    ensures ok { (system : List Row) → IfOk result (λ outcome. outcome_of outcome ≡ press_esc system (state_of state)) }
    ensures kept { IfErr result (λ refused. refused.0 ≡ state) }
{
    let mut typing = state.typing.copy();
    if typing.layout.holds() {
        typing.layout.clear();
        return settle(alloc, state, typing, Note::Quiet);
    }
    if !typing.settings.escape_clears {
        return ring(alloc, state);
    }
    if cell_count(&typing.preedit) == 0 {
        return ring(alloc, state);
    }
    typing.preedit.empty();
    edit(alloc, state, typing)
}
