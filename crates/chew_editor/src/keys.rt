ghost use Rattle.std.specs.Prelude.{◌≡◌, IfErr, IfOk, IsTrue, if◌then◌else◌};
ghost use Rattle.chew_spec_layout.specs.Layout.{holds};
ghost use Rattle.chew_spec_text.specs.KeyStroke.{is_key_stroke};
ghost use Rattle.chew_spec_editor.specs.Invariant.{is_editor};
ghost use Rattle.chew_spec_editor.specs.Keys.{press, press_free, press_plain};
ghost use Rattle.chew_spec_editor.specs.Press.{bell};
ghost use Rattle.chew_script.specs.Keys.{key_of};
ghost use Rattle.chew_editor.specs.Outcome.{outcome_of};
ghost use Rattle.chew_editor.specs.State.{state_of};

use crate::committing::press_enter;
use crate::edit_keys::{press_backspace, press_delete, press_esc, press_tab};
use crate::inserting::press_char;
use crate::move_keys::{go_to, press_end, press_left, press_right};
use crate::opening::press_down;
use crate::outcome::Outcome;
use crate::phrase_keys::{press_add, press_forget, press_hide};
use crate::settling::ring;
use crate::state::State;
use crate::window_keys::press_window;
use chew_candidates::Window;
use chew_plain::Lexicon;
use chew_script::KeyStroke;
use chew_syllable::NoMemory;
use std::alloc::Global;

/// What a key does.
#[tactic(auto, unfolding(chew_spec_editor::specs::Keys::press))]
pub(crate) fn press_key<L: Lexicon>(
    alloc: Global,
    state: State,
    system: &L,
    key: KeyStroke,
) -> Result<Outcome, (State, NoMemory)>
    requires key { IsTrue (is_key_stroke (key_of key)) }
    requires editor { IsTrue (is_editor (state_of state)) }
    ensures ok { IfOk result (λ outcome. outcome_of outcome ≡ press (L.rows system.now) (state_of state) (key_of key)) }
    ensures kept { IfErr result (λ refused. refused.0 ≡ state) }
{
    match window_copied(alloc, &state.window) {
        Ok(copied) => match copied {
            Some(window) => press_window(alloc, state, window, key),
            None => press_plain(alloc, state, system, key),
        },
        Err(refused) => Err((state, refused)),
    }
}

/// The window that is open, once more.
fn window_copied(alloc: Global, window: &Option<Window>) -> Result<Option<Window>, NoMemory>
    ensures { IfOk result (λ copied. copied ≡ window.now) }
{
    match window {
        Some(window) => Ok(Some(window.copy(alloc)?)),
        None => Ok(None),
    }
}

/// What a key does while no window is open: while the layout holds something, every key but a character, Backspace and
/// Esc is a bell.
#[tactic(auto, unfolding(chew_spec_editor::specs::Keys::press_plain))]
fn press_plain<L: Lexicon>(
    alloc: Global,
    state: State,
    system: &L,
    key: KeyStroke,
) -> Result<Outcome, (State, NoMemory)>
    requires key { IsTrue (is_key_stroke (key_of key)) }
    requires editor { IsTrue (is_editor (state_of state)) }
    ensures ok { IfOk result (λ outcome. outcome_of outcome ≡ press_plain (L.rows system.now) (state_of state) (key_of key)) }
    ensures kept { IfErr result (λ refused. refused.0 ≡ state) }
{
    match key {
        KeyStroke::Char(byte) => press_char(alloc, state, system, byte),
        KeyStroke::Backspace => press_backspace(alloc, state),
        KeyStroke::Esc => press_esc(alloc, state),
        _ => press_waiting(alloc, state, system, key),
    }
}

/// A key that is a bell while the layout holds something.
fn press_waiting<L: Lexicon>(
    alloc: Global,
    state: State,
    system: &L,
    key: KeyStroke,
) -> Result<Outcome, (State, NoMemory)>
    requires key { IsTrue (is_key_stroke (key_of key)) }
    requires editor { IsTrue (is_editor (state_of state)) }
    ensures ok { IfOk result (λ outcome. outcome_of outcome
        ≡ (if holds (state_of state).layout then bell (state_of state) else press_free (L.rows system.now) (state_of state) (key_of key))) }
    ensures kept { IfErr result (λ refused. refused.0 ≡ state) }
{
    if state.typing.layout.holds() {
        return ring(alloc, state);
    }
    press_free(alloc, state, system, key)
}

/// What a key does that waits until the layout holds nothing.
#[tactic(auto, unfolding(chew_spec_editor::specs::Keys::press_free))]
fn press_free<L: Lexicon>(
    alloc: Global,
    state: State,
    system: &L,
    key: KeyStroke,
) -> Result<Outcome, (State, NoMemory)>
    requires key { IsTrue (is_key_stroke (key_of key)) }
    requires editor { IsTrue (is_editor (state_of state)) }
    ensures ok { IfOk result (λ outcome. outcome_of outcome ≡ press_free (L.rows system.now) (state_of state) (key_of key)) }
    ensures kept { IfErr result (λ refused. refused.0 ≡ state) }
{
    match key {
        KeyStroke::Enter => press_enter(alloc, state, system),
        KeyStroke::Delete => press_delete(alloc, state),
        KeyStroke::Left => press_left(alloc, state),
        KeyStroke::Right => press_right(alloc, state),
        KeyStroke::Home => go_to(alloc, state, 0),
        KeyStroke::End => press_end(alloc, state),
        KeyStroke::Tab => press_tab(alloc, state),
        KeyStroke::Add(len) => press_add(alloc, state, system, len),
        KeyStroke::Forget(len) => press_forget(alloc, state, len),
        KeyStroke::Hide(len) => press_hide(alloc, state, len),
        KeyStroke::Down => press_down(alloc, state),
        KeyStroke::Char(_)
        | KeyStroke::Backspace
        | KeyStroke::Up
        | KeyStroke::PageUp
        | KeyStroke::PageDown
        | KeyStroke::Esc => ring(alloc, state),
    }
}
