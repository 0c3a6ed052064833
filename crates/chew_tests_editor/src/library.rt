//! The engine as a library: 測試 is typed into an editor over a dictionary, and committed.

ghost use Rattle.std.specs.Prelude.{◌≡◌, ◌++◌, IfOk, IsTrue, map};
ghost use Rattle.std.specs.List.{list_all};
ghost use Rattle.chew_spec_dictionary.specs.History.{is_user_call};
ghost use Rattle.chew_spec_editor.specs.Alone.{point_after, replies_from};
ghost use Rattle.chew_spec_editor.specs.Invariant.{HasSingles};
ghost use Rattle.chew_spec_syllable.specs.Row.{is_row};
ghost use Rattle.chew_spec_text.specs.KeyStroke.{is_key_stroke};
ghost use Rattle.chew_plain.specs.Call.{call_of, reply_of};
ghost use Rattle.chew_script.specs.Keys.{key_of, keys_of};

use chew_editor::{Editor, Pending, Pressed, finish, press};
use chew_plain::{Call, Plain, Reply, RowMap};
use chew_samples::five;
use chew_script::{KeyStroke, Line};
use chew_settings::Settings;
use chew_syllable::NoMemory;
use std::alloc::Global;
use std::test::Fail;

/// The keys of 測試 on the default layout, and Enter.
const KEYS: [KeyStroke; 6] = [
    KeyStroke::Char(b'h'),
    KeyStroke::Char(b'k'),
    KeyStroke::Char(b'4'),
    KeyStroke::Char(b'g'),
    KeyStroke::Char(b'4'),
    KeyStroke::Enter,
];

#[test]
fn a_phrase_is_typed_committed_and_learnt(rt: HostRuntime) -> Result<(), Fail> {
    let alloc = rt.alloc();
    let settings = Settings::standard();
    let system = RowMap::of(five(alloc)?)?;
    let mut user = Plain::of(Vec::new(alloc), 0, settings.cap)?;
    let editor = Editor::new(alloc, &settings);
    let mut committed = Vec::new(alloc);
    type_keys(alloc, editor, &system, &mut user, &KEYS, &mut committed)?;
    assert!(rt; committed.as_slice() == "測試".as_bytes());
    assert_eq!(rt; user.pairs(), 1);
    Ok(())
}

/// Types keys one after another, and gathers what they commit.
fn type_keys(
    alloc: Global,
    editor: Editor,
    system: &RowMap,
    user: &mut Plain,
    keys: &[KeyStroke],
    committed: &mut Vec<u8>,
) -> Result<(), NoMemory>
    requires singles { HasSingles system.now editor.buffer.cells }
    requires pairs { IsTrue (list_all is_row user.old.dictionary.pairs) }
    requires keys { IsTrue (list_all is_key_stroke (keys_of keys.now)) }
{
    match keys {
        [] => Ok(()),
        [key, rest @ ..] => {
            let (editor, line) = type_key(alloc, editor, system, user, *key)?;
            committed.extend_from_slice(line.commit.bytes())?;
            type_keys(alloc, editor, system, user, rest, committed)
        }
    }
}

/// What a key does over a dictionary that answers the calls that the editor asks.
fn type_key(
    alloc: Global,
    editor: Editor,
    system: &RowMap,
    user: &mut Plain,
    key: KeyStroke,
) -> Result<(Editor, Line), NoMemory>
    requires singles { HasSingles system.now editor.buffer.cells }
    requires pairs { IsTrue (list_all is_row user.old.dictionary.pairs) }
    requires key { IsTrue (is_key_stroke (key_of key)) }
    ensures singles { IfOk result (λ done. HasSingles system.now done.0.buffer.cells) }
    ensures pairs { IfOk result (λ _. IsTrue (list_all is_row user.new.dictionary.pairs)) }
{
    match press(alloc, editor, system, key) {
        Ok(Pressed::Done(editor, line)) => Ok((editor, line)),
        Ok(Pressed::Ask(pending)) => answered(alloc, pending, system, user),
        Err((_editor, refused)) => Err(refused),
    }
}

/// What the editor makes of the replies to the calls that it asked.
pub(crate) fn answered(
    alloc: Global,
    pending: Pending,
    system: &RowMap,
    user: &mut Plain,
) -> Result<(Editor, Line), NoMemory>
    requires singles { HasSingles system.now pending.editor.buffer.cells }
    requires pairs { IsTrue (list_all is_row user.old.dictionary.pairs) }
    ensures singles { IfOk result (λ done. HasSingles system.now done.0.buffer.cells) }
    ensures pairs { IfOk result (λ _. IsTrue (list_all is_row user.new.dictionary.pairs)) }
{
    let mut replies = Vec::new(alloc);
    answer(user, pending.calls(), &mut replies)?;
    finish(alloc, pending, system, replies)
}

/// Makes calls, one after another.
fn answer(user: &mut Plain, calls: &[Call], replies: &mut Vec<Reply>) -> Result<(), NoMemory>
    requires { IsTrue (list_all is_user_call (map call_of calls.now)) }
    ensures replies { IfOk result (λ _. map reply_of replies.new.items ≡ map reply_of replies.old.items ++ replies_from user.old (map call_of calls.now)) }
    ensures point { IfOk result (λ _. user.new ≡ point_after user.old (map call_of calls.now)) }
{
    match calls {
        [] => Ok(()),
        [call, rest @ ..] => {
            replies.push(user.apply(call)?)?;
            answer(user, rest, replies)
        }
    }
}
