//! An editor alone with a system and a user's dictionary: each call is answered as it is made.

ghost use Rattle.std.specs.Prelude.{IfOk, IsTrue};
ghost use Rattle.std.specs.List.{list_all};
ghost use Rattle.chew_spec_dictionary.specs.History.{is_user_call};
ghost use Rattle.chew_spec_syllable.specs.Row.{is_row};
ghost use Rattle.chew_spec_text.specs.KeyStroke.{is_key_stroke};
ghost use Rattle.chew_spec_editor.specs.Invariant.{HasSingles};
ghost use Rattle.chew_plain.specs.Call.{call_of};
ghost use Rattle.chew_script.specs.Keys.{key_of, keys_of};

use crate::library::answered;
use chew_editor::{Editor, Pressed, press};
use chew_plain::{Call, Entry, Plain, RowMap};
use chew_script::{KeyStroke, Line, append_entry, append_line};
use chew_settings::Settings;
use chew_syllable::NoMemory;
use std::alloc::Global;
use std::marker::Model;

/// An editor with its system and its dictionary, the lines that it showed, and its calls as a trace has them.
#[derive(Drop)]
pub(crate) struct Alone {
    system: RowMap,
    editor: Editor,
    pub(crate) plain: Plain,
    pub(crate) lines: Vec<u8>,
    pub(crate) calls: Vec<u8>,
}

impl Model for Alone {
    ghost use Rattle.std.specs.Prelude.{IsTrue};
    ghost use Rattle.std.specs.List.{list_all};
    ghost use Rattle.chew_spec_syllable.specs.Row.{is_row};
    ghost use Rattle.chew_spec_editor.specs.Editor as spec;
    ghost use Rattle.chew_spec_editor.specs.Invariant.{HasSingles};

    ghost Value = { spec.Editor };

    ghost view = { λ a. a.editor };

    ghost invariant = { λ a. HasSingles a.system a.editor.buffer.cells × IsTrue (list_all is_row a.plain.dictionary.pairs) };
}

impl Alone {
    /// An editor that holds nothing, over this system and this dictionary.
    pub(crate) fn new(alloc: Global, system: RowMap, settings: &Settings, plain: Plain) -> Alone
        requires { IsTrue (list_all is_row plain.dictionary.pairs) }
    {
        Alone {
            system,
            editor: Editor::new(alloc, settings),
            plain,
            lines: Vec::new(alloc),
            calls: Vec::new(alloc),
        }
    }

    /// After a call that somebody else made of the dictionary.
    pub(crate) fn told(self, call: &Call) -> Result<Alone, NoMemory>
        requires { IsTrue (is_user_call (call_of call.now)) }
    {
        let Alone {
            system,
            editor,
            mut plain,
            lines,
            calls,
        } = self;
        plain.apply(call)?;
        Ok(Alone {
            system,
            editor,
            plain,
            lines,
            calls,
        })
    }

    /// After these keys too.
    pub(crate) fn typed(self, alloc: Global, keys: &[KeyStroke]) -> Result<Alone, NoMemory>
        requires { IsTrue (list_all is_key_stroke (keys_of keys.now)) }
    {
        match keys {
            [] => Ok(self),
            [key, rest @ ..] => self.pressed(alloc, *key)?.typed(alloc, rest),
        }
    }

    /// After this key too.
    pub(crate) fn pressed(self, alloc: Global, key: KeyStroke) -> Result<Alone, NoMemory>
        requires { IsTrue (is_key_stroke (key_of key)) }
    {
        let Alone {
            system,
            editor,
            mut plain,
            mut lines,
            mut calls,
        } = self;
        let (editor, line) = typed(alloc, editor, &system, &mut plain, &mut calls, key)?;
        append_line(&mut lines, &line)?;
        Ok(Alone {
            system,
            editor,
            plain,
            lines,
            calls,
        })
    }
}

/// What a key does over a dictionary that answers its calls, which are noted down.
fn typed(
    alloc: Global,
    editor: Editor,
    system: &RowMap,
    plain: &mut Plain,
    noted: &mut Vec<u8>,
    key: KeyStroke,
) -> Result<(Editor, Line), NoMemory>
    requires singles { HasSingles system.now editor.buffer.cells }
    requires pairs { IsTrue (list_all is_row plain.old.dictionary.pairs) }
    requires key { IsTrue (is_key_stroke (key_of key)) }
    ensures singles { IfOk result (λ done. HasSingles system.now done.0.buffer.cells) }
    ensures pairs { IfOk result (λ _. IsTrue (list_all is_row plain.new.dictionary.pairs)) }
{
    match press(alloc, editor, system, key) {
        Ok(Pressed::Done(editor, line)) => Ok((editor, line)),
        Ok(Pressed::Ask(pending)) => {
            note(noted, pending.calls())?;
            answered(alloc, pending, system, plain)
        }
        Err((_editor, refused)) => Err(refused),
    }
}

/// Writes calls as a trace has them.
fn note(noted: &mut Vec<u8>, calls: &[Call]) -> Result<(), NoMemory> {
    for call in calls {
        append_entry(
            noted,
            &Entry {
                who: 1,
                call: call.copy(),
            },
        )?;
    }
    Ok(())
}
