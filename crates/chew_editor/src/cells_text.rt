ghost use Rattle.std.specs.Prelude.{◌≡◌, IfOk, drop};
ghost use Rattle.chew_spec_editor.specs.Editor.{shown_text};
ghost use Rattle.chew_spec_editor.specs.Press.{text_at};
ghost use Rattle.chew_editor.specs.State.{state_of};

use crate::characters::characters;
use crate::line::{front_of, text_of};
use crate::state::State;
use chew_script::Text;
use chew_syllable::NoMemory;
use std::alloc::Global;

/// The text of all cells.
pub(crate) fn shown_text(alloc: Global, state: &State) -> Result<Text, NoMemory>
    ensures { IfOk result (λ text. text ≡ shown_text (state_of state.now)) }
{
    let characters = characters(alloc, state.typing.preedit.cells(), &state.pieces)?;
    let text = text_of(alloc, &characters)?;
    Ok(Text::of(text.into_bytes()))
}

/// The text of so many cells from a place on.
#[tactic(auto, unfolding(chew_spec_editor::specs::Press::text_at))]
pub(crate) fn text_at(
    alloc: Global,
    state: &State,
    place: usize,
    len: usize,
) -> Result<Text, NoMemory>
    ensures { IfOk result (λ text. text ≡ text_at (state_of state.now) place len) }
{
    let characters = characters(alloc, state.typing.preedit.cells(), &state.pieces)?;
    let text = text_of(alloc, front_of(behind(&characters, place), len))?;
    Ok(Text::of(text.into_bytes()))
}

/// The characters from a place on.
fn behind(characters: &[char], place: usize) -> &[char]
    ensures { result.now ≡ drop place characters.now }
{
    if characters.len() > place {
        &characters[place..]
    } else {
        &[]
    }
}
