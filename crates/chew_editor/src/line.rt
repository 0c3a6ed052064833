ghost use Rattle.std.specs.Prelude.{◌≡◌, ◌≤◌, [], IfOk, IsUtf8, chars, encode_utf8_all, false, length, string_bytes, take};
ghost use Rattle.std.specs.Option.{option_map_or};
ghost use Rattle.unicode_width.specs.Width.{str_width};
ghost use Rattle.chew_spec_editor.specs.Editor.{line_of, window_text};
ghost use Rattle.chew_spec_layout.specs.Layout.{shown};
ghost use Rattle.chew_layouts.specs.Layouts.{layout_of};
ghost use Rattle.chew_script.specs.Notes.{note_of};
ghost use Rattle.chew_editor.specs.State.{editor_of};

use crate::characters::characters;
use crate::state::Typing;
use crate::window_text::window_text;
use chew_candidates::Window;
use chew_layouts::Layout;
use chew_phrasing::Piece;
use chew_script::{Line, Note, Text};
use chew_syllable::NoMemory;
use std::alloc::Global;
use unicode_width::UnicodeWidthStr;

/// The text of characters.
#[tactic(auto, using(crate::proofs::Encoded::encoded_more))]
pub(crate) fn text_of(alloc: Global, characters: &[char]) -> Result<String, NoMemory>
    ensures { IfOk result (λ text. string_bytes text ≡ encode_utf8_all characters.now) }
{
    let mut text = String::new(alloc);
    for character in characters {
        text.push(*character)?;
    }
    Ok(text)
}

/// At most so many characters, from the first on.
pub(crate) fn front_of(characters: &[char], count: usize) -> &[char]
    ensures value { result.now ≡ take count characters.now }
    ensures few { length result.now ≤ count }
{
    if characters.len() > count {
        &characters[..count]
    } else {
        characters
    }
}

/// The columns that a short text takes.
fn width_of(text: &str) -> u32
    requires { length text.now ≤ 1020 }
    ensures value { result ≡ str_width false (chars text.now) }
    ensures utf8 { IsUtf8 text.now }
{
    text.width() as u32
}

/// The columns that a few characters take together.
fn column_of(alloc: Global, front: &[char]) -> Result<u32, NoMemory>
    requires { length front.now ≤ 255 }
    ensures { IfOk result (λ column. column ≡ str_width false front.now) }
{
    let text = text_of(alloc, front)?;
    Ok(width_of(text.as_str()))
}

/// What the layout holds.
fn held_text(alloc: Global, layout: &Layout) -> Result<Text, NoMemory>
    ensures { IfOk result (λ text. text ≡ shown (layout_of layout.now)) }
{
    let held = Vec::from_slice(alloc, layout.shown().as_str().as_bytes())?;
    Ok(Text::of(held))
}

/// The text of the window, or none.
fn window_shown(alloc: Global, selection: &[u8], window: &Option<Window>) -> Result<Text, NoMemory>
    ensures { IfOk result (λ text. text ≡ option_map_or (window_text selection.now) window.now []) }
{
    match window {
        Some(window) => Ok(Text::of(window_text(alloc, selection, window)?)),
        None => Ok(Text::new(alloc)),
    }
}

/// The line that shows an editor, with what its key committed.
#[tactic(auto, unfolding(chew_spec_editor::specs::Editor::line_of))]
pub(crate) fn line_of(
    alloc: Global,
    typing: &Typing,
    pieces: &[Piece],
    window: &Option<Window>,
    commit: Text,
    note: Note,
) -> Result<Line, NoMemory>
    ensures { IfOk result (λ line. line ≡ line_of (editor_of typing.now pieces.now window.now) commit (note_of note)) }
{
    let characters = characters(alloc, typing.preedit.cells(), pieces)?;
    let preedit = text_of(alloc, &characters)?;
    let front = front_of(&characters, usize::from(typing.preedit.cursor()));
    let column = column_of(alloc, front)?;
    let held = held_text(alloc, &typing.layout)?;
    let window = window_shown(alloc, typing.settings.selection(), window)?;
    Ok(Line {
        preedit: Text::of(preedit.into_bytes()),
        column,
        held,
        commit,
        window,
        note,
    })
}
