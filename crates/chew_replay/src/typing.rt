//! One key of a context, by what a journal says.

ghost use Rattle.std.specs.Prelude.{IfOk, IsTrue};
ghost use Rattle.chew_spec_text.specs.KeyStroke.{is_key_stroke};
ghost use Rattle.chew_spec_editor.specs.Invariant.{HasSingles};
ghost use Rattle.chew_script.specs.Keys.{key_of};

use crate::fault::ReplayFault;
use crate::retold::Retold;
use chew_editor::{Editor, Pressed, finish, press};
use chew_plain::{Entry, RowMap};
use chew_script::{KeyStroke, Line, append_line};
use chew_settings::Settings;
use chew_syllable::NoMemory;
use std::alloc::Global;
use std::marker::Model;

/// An editor with its system, the dictionary as the journal has it by now, and the lines so far.
#[derive(Drop)]
pub(crate) struct Typist {
    system: RowMap,
    editor: Editor,
    pub(crate) retold: Retold,
    pub(crate) lines: Vec<u8>,
}

impl Model for Typist {
    ghost use Rattle.chew_spec_editor.specs.Editor as spec;
    ghost use Rattle.chew_spec_editor.specs.Invariant.{HasSingles};

    ghost Value = { spec.Editor };

    ghost view = { λ it. it.editor };

    ghost invariant = { λ it. HasSingles it.system it.editor.buffer.cells };
}

impl Typist {
    /// An editor that holds nothing, over this system.
    pub(crate) fn new(
        alloc: Global,
        system: RowMap,
        settings: &Settings,
        retold: Retold,
    ) -> Typist {
        Typist {
            system,
            editor: Editor::new(alloc, settings),
            retold,
            lines: Vec::new(alloc),
        }
    }

    /// After this key too, which the context of this number types.
    pub(crate) fn pressed(
        self,
        alloc: Global,
        journal: &[Entry],
        who: u32,
        key: KeyStroke,
    ) -> Result<Typist, ReplayFault>
        requires { IsTrue (is_key_stroke (key_of key)) }
    {
        let Typist {
            system,
            editor,
            mut retold,
            mut lines,
        } = self;
        let (editor, line) = typed(alloc, editor, &system, &mut retold, journal, who, key)?;
        append_line(&mut lines, &line)?;
        Ok(Typist {
            system,
            editor,
            retold,
            lines,
        })
    }
}

/// What a key does by the replies to its calls, each where it stands in the journal.
fn typed(
    alloc: Global,
    editor: Editor,
    system: &RowMap,
    retold: &mut Retold,
    journal: &[Entry],
    who: u32,
    key: KeyStroke,
) -> Result<(Editor, Line), ReplayFault>
    requires singles { HasSingles system.now editor.buffer.cells }
    requires key { IsTrue (is_key_stroke (key_of key)) }
    ensures singles { IfOk result (λ done. HasSingles system.now done.0.buffer.cells) }
{
    match press(alloc, editor, system, key) {
        Ok(Pressed::Done(editor, line)) => Ok((editor, line)),
        Ok(Pressed::Ask(pending)) => {
            let replies = retold.make_all(alloc, journal, who, pending.calls())?;
            match finish(alloc, pending, system, replies) {
                Ok(done) => Ok(done),
                Err(NoMemory) => Err(ReplayFault::NoMemory),
            }
        }
        Err((_editor, _refused)) => Err(ReplayFault::NoMemory),
    }
}
