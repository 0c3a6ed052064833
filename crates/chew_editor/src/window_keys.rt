ghost use Rattle.std.specs.Prelude.{◌≡◌, ◌<◌, ◌≤◌, ◌==◌, IfErr, IfOk, IfSome, IsTrue, List, length, position};
ghost use Rattle.std.specs.Option.{option_and_then};
ghost use Rattle.chew_spec_syllable.specs.Row.{Row};
ghost use Rattle.chew_spec_preedit.specs.Buffer.{is_choosable};
ghost use Rattle.chew_spec_preedit.specs.Edit.{chosen};
ghost use Rattle.chew_spec_preedit.specs.Window.{next_page, page_before, picked, shorter};
ghost use Rattle.chew_spec_editor.specs.Invariant.{is_window_over};
ghost use Rattle.chew_spec_editor.specs.Keys.{press_selection, press_window, with_window};
ghost use Rattle.chew_spec_editor.specs.Press.{edit};
ghost use Rattle.chew_script.specs.Keys.{key_of};
ghost use Rattle.chew_editor.specs.Outcome.{outcome_of};
ghost use Rattle.chew_editor.specs.State.{state_of};

use crate::edit_keys::edit;
use crate::outcome::Outcome;
use crate::settling::{rewindow, ring};
use crate::state::State;
use chew_candidates::Window;
use chew_phrasing::Choice;
use chew_script::KeyStroke;
use chew_syllable::{NoMemory, place_of};
use std::alloc::Global;

/// What a key does while this window is open.
#[tactic(auto, unfolding(chew_spec_editor::specs::Keys::press_window))]
pub(crate) fn press_window(
    alloc: Global,
    state: State,
    window: Window,
    key: KeyStroke,
) -> Result<Outcome, (State, NoMemory)>
    requires { IsTrue (is_window_over state.typing.preedit window) }
    ensures ok { (system : List Row) → IfOk result (λ outcome. outcome_of outcome ≡ press_window system (state_of state) window (key_of key)) }
    ensures kept { IfErr result (λ refused. refused.0 ≡ state) }
{
    match key {
        KeyStroke::Char(byte) => press_selection(alloc, state, window, byte),
        KeyStroke::Down => show_shorter(alloc, state, window),
        KeyStroke::PageDown | KeyStroke::Right => show_next_page(alloc, state, window),
        KeyStroke::PageUp | KeyStroke::Left => show_page_before(alloc, state, window),
        KeyStroke::Up | KeyStroke::Esc => rewindow(alloc, state, None),
        KeyStroke::Enter
        | KeyStroke::Backspace
        | KeyStroke::Delete
        | KeyStroke::Home
        | KeyStroke::End
        | KeyStroke::Tab
        | KeyStroke::Add(_)
        | KeyStroke::Forget(_)
        | KeyStroke::Hide(_) => ring(alloc, state),
    }
}

/// The window shows its next shorter list.
fn show_shorter(alloc: Global, state: State, window: Window) -> Result<Outcome, (State, NoMemory)>
    ensures ok { IfOk result (λ outcome. outcome_of outcome ≡ with_window (state_of state) (shorter window)) }
    ensures kept { IfErr result (λ refused. refused.0 ≡ state) }
{
    let mut window = window;
    window.shorter();
    rewindow(alloc, state, Some(window))
}

/// The window shows its next page.
fn show_next_page(alloc: Global, state: State, window: Window) -> Result<Outcome, (State, NoMemory)>
    ensures ok { IfOk result (λ outcome. outcome_of outcome ≡ with_window (state_of state) (next_page window)) }
    ensures kept { IfErr result (λ refused. refused.0 ≡ state) }
{
    let mut window = window;
    window.page_next();
    rewindow(alloc, state, Some(window))
}

/// The window shows the page before.
fn show_page_before(
    alloc: Global,
    state: State,
    window: Window,
) -> Result<Outcome, (State, NoMemory)>
    ensures ok { IfOk result (λ outcome. outcome_of outcome ≡ with_window (state_of state) (page_before window)) }
    ensures kept { IfErr result (λ refused. refused.0 ≡ state) }
{
    let mut window = window;
    window.page_back();
    rewindow(alloc, state, Some(window))
}

/// A selection key picks a candidate of the page: it becomes a choice, and the window closes.
#[tactic(auto, unfolding(chew_spec_editor::specs::Keys::press_selection))]
fn press_selection(
    alloc: Global,
    state: State,
    window: Window,
    byte: u8,
) -> Result<Outcome, (State, NoMemory)>
    requires { IsTrue (is_window_over state.typing.preedit window) }
    ensures ok { (system : List Row) → IfOk result (λ outcome. outcome_of outcome ≡ press_selection system (state_of state) window byte) }
    ensures kept { IfErr result (λ refused. refused.0 ≡ state) }
{
    match pick_by(&window, state.typing.settings.selection(), byte) {
        Some(choice) => choose(alloc, state, choice),
        None => ring(alloc, state),
    }
}

/// The candidate that a selection key picks, as a choice.
fn pick_by(window: &Window, selection: &[u8], byte: u8) -> Option<Choice>
    requires { length selection.now ≤ 255 }
    ensures value { result ≡ option_and_then (picked window.now) (position (λ key. key == byte) selection.now) }
    ensures freq { IfSome result (λ choice. choice.freq ≤ 99_999_999) }
{
    let place = place_of(selection, byte)?;
    window.pick(place as u8)
}

/// The cells of the choice show it from now on.
fn choose(alloc: Global, state: State, choice: Choice) -> Result<Outcome, (State, NoMemory)>
    requires choosable { IsTrue (is_choosable state.typing.preedit.cells state.typing.preedit.breaks choice) }
    requires freq { choice.freq ≤ 99_999_999 }
    ensures ok { (system : List Row) → IfOk result (λ outcome. outcome_of outcome ≡ edit system (state_of state) (chosen choice state.typing.preedit)) }
    ensures kept { IfErr result (λ refused. refused.0 ≡ state) }
{
    let mut typing = state.typing.copy();
    typing.preedit.choose(choice);
    edit(alloc, state, typing)
}
