ghost use Rattle.std.specs.Prelude.{◌≡◌, IfErr, IfOk, IsTrue};
ghost use Rattle.chew_spec_text.specs.KeyStroke.{is_key_stroke};
ghost use Rattle.chew_spec_editor.specs.Commits.{buffer_left};
ghost use Rattle.chew_spec_editor.specs.Invariant.{HasSingles};
ghost use Rattle.chew_spec_editor.specs.Keys.{press};
ghost use Rattle.chew_script.specs.Keys.{key_of};
ghost use Rattle.chew_editor.specs.Pressed.{pressed_of};

use crate::editor::Editor;
use crate::keys::press_key;
use crate::outcome::Outcome;
use crate::pending::Pending;
use crate::rows::all_are_rows;
use chew_plain::Lexicon;
use chew_script::{KeyStroke, Line};
use chew_syllable::NoMemory;
use std::alloc::Global;

/// What a key did.
#[derive(Drop)]
pub enum Pressed {
    /// It changed the editor at once.
    Done(Editor, Line),
    /// It asks calls of the dictionary first.
    Ask(Pending),
}

/// What the key does, which is one that a script can name. An editor that is refused memory comes back as it was.
pub fn press<L: Lexicon>(
    alloc: Global,
    editor: Editor,
    system: &L,
    key: KeyStroke,
) -> Result<Pressed, (Editor, NoMemory)>
    requires { IsTrue (is_key_stroke (key_of key)) }
    ensures ok { IfOk result (λ pressed. pressed_of pressed ≡ press (L.rows system.now) editor (key_of key)) }
    ensures singles { HasSingles (L.rows system.now) editor.buffer.cells
        → IfOk result (λ pressed. HasSingles (L.rows system.now) (buffer_left (pressed_of pressed)).cells) }
    ensures kept { IfErr result (λ refused. refused.0 ≡ editor) }
{
    all_are_rows(system);
    match press_key(alloc, editor.state, system, key) {
        Ok(outcome) => match outcome {
            Outcome::Done(state, line) => Ok(Pressed::Done(Editor { state }, line)),
            Outcome::Ask(asked) => Ok(Pressed::Ask(Pending { asked })),
        },
        Err((state, refused)) => Err((Editor { state }, refused)),
    }
}
