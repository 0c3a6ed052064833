//! One key of a context.

ghost use Rattle.std.specs.Prelude.{◌≡◌, ◌≢◌, ◌+◌, ◌≤◌, ◌++◌, IfOk, IsTrue, OnErr, OnOk, map, vec_capacity, vec_len};
ghost use Rattle.std.specs.List.{list_all};
ghost use Rattle.chew_spec_syllable.specs.Row.{is_row};
ghost use Rattle.chew_spec_dictionary.specs.History.{is_legal, start_of};
ghost use Rattle.chew_spec_text.specs.KeyStroke.{is_key_stroke};
ghost use Rattle.chew_spec_text.specs.Line.{line_text};
ghost use Rattle.chew_spec_editor.specs.Answers.{AreAnswers};
ghost use Rattle.chew_spec_editor.specs.Commits.{buffer_left};
ghost use Rattle.chew_spec_editor.specs.Finish.{finish};
ghost use Rattle.chew_spec_editor.specs.Invariant.{HasSingles};
ghost use Rattle.chew_spec_editor.specs.Keys.{calls_asked, press};
ghost use Rattle.chew_spec_editor.specs.Pending.{calls_of};
ghost use Rattle.chew_spec_shared.specs.SharedCalls.{IsOf};
ghost use Rattle.chew_plain.specs.Call.{reply_of};
ghost use Rattle.chew_script.specs.Keys.{key_of};
ghost use Rattle.chew_editor.specs.Pressed.{pressed_of};
ghost use Rattle.chew_session.specs.Typing.{Answered, Asks, Turns};

use crate::asking::ask_all;
use chew_cell::Pass;
use chew_editor::{Editor, Pending, Pressed, finish, press};
use chew_plain::{Lexicon, Reply};
use chew_script::{KeyStroke, Line, append_line};
use chew_shared::Shared;
use chew_syllable::NoMemory;
use std::alloc::Global;
use std::sync::Wait;

/// The room that is kept for the line of a key. No line is longer.
const LINE_ROOM: usize = 1_024;

/// Handles a key: makes its calls, and prints its line. Where memory is refused nothing is printed, but the calls that were made
/// by then stand in the history.
pub(crate) fn handle_key<R: Wait, L: Lexicon>(
    alloc: Global,
    rt: &R,
    system: &L,
    shared: &Shared,
    pass: Pass,
    text: &mut Vec<u8>,
    editor: Editor,
    key: KeyStroke,
) -> (Pass, Result<Editor, NoMemory>)
    requires ours { IsOf shared.now pass }
    requires context { pass.who ≢ 0 }
    requires legal { IsTrue (is_legal (start_of shared.now.start) pass.seen) }
    requires pairs { IsTrue (list_all is_row shared.now.start.pairs) }
    requires singles { HasSingles (L.rows system.now) editor.buffer.cells }
    requires key { IsTrue (is_key_stroke (key_of key)) }
    ensures ours { IsOf shared.now result.0 }
    ensures who { result.0.who ≡ pass.who }
    ensures legal { IsTrue (is_legal (start_of shared.now.start) result.0.seen) }
    ensures ok { IfOk result.1
        (λ next. Turns (L.rows system.now) (start_of shared.now.start) pass.who
        (key_of key) editor next pass.seen result.0.seen text.old.items text.new.items) }
    ensures singles { IfOk result.1 (λ next. HasSingles (L.rows system.now) next.buffer.cells) }
    ensures err { OnErr result.1
        (Asks (start_of shared.now.start) pass.who (calls_asked (press (L.rows system.now) editor (key_of key))) pass.seen result.0.seen) }
    ensures kept { OnErr result.1 (text.new.items ≡ text.old.items) }
{
    match press_with_room(alloc, system, text, editor, key) {
        Err(refused) => (pass, Err(refused)),
        Ok(Pressed::Done(next, line)) => (pass, print(text, &line, next)),
        Ok(Pressed::Ask(pending)) => answer(alloc, rt, system, shared, pass, text, pending),
    }
}

/// Makes room for the key's line, and presses the key.
fn press_with_room<L: Lexicon>(
    alloc: Global,
    system: &L,
    text: &mut Vec<u8>,
    editor: Editor,
    key: KeyStroke,
) -> Result<Pressed, NoMemory>
    requires { IsTrue (is_key_stroke (key_of key)) }
    ensures ok { IfOk result (λ pressed. pressed_of pressed ≡ press (L.rows system.now) editor (key_of key)) }
    ensures singles { HasSingles (L.rows system.now) editor.buffer.cells
        → IfOk result (λ pressed. HasSingles (L.rows system.now) (buffer_left (pressed_of pressed)).cells) }
    ensures kept { text.new.items ≡ text.old.items }
    ensures room { OnOk result (vec_len text.new + 1_024 ≤ vec_capacity text.new) }
{
    text.reserve(LINE_ROOM)?;
    match press(alloc, editor, system, key) {
        Ok(pressed) => Ok(pressed),
        Err((_, refused)) => Err(refused),
    }
}

/// Prints the line of a key that leaves this editor.
fn print(text: &mut Vec<u8>, line: &Line, next: Editor) -> Result<Editor, NoMemory>
    ensures same { IfOk result (λ editor. editor ≡ next) }
    ensures ok { OnOk result (text.new.items ≡ text.old.items ++ line_text line.now) }
    ensures err { OnErr result (text.new.items ≡ text.old.items) }
{
    append_line(text, line)?;
    Ok(next)
}

/// Makes the calls of a key, and prints its line.
fn answer<R: Wait, L: Lexicon>(
    alloc: Global,
    rt: &R,
    system: &L,
    shared: &Shared,
    pass: Pass,
    text: &mut Vec<u8>,
    pending: Pending,
) -> (Pass, Result<Editor, NoMemory>)
    requires ours { IsOf shared.now pass }
    requires context { pass.who ≢ 0 }
    requires legal { IsTrue (is_legal (start_of shared.now.start) pass.seen) }
    requires pairs { IsTrue (list_all is_row shared.now.start.pairs) }
    requires singles { HasSingles (L.rows system.now) pending.editor.buffer.cells }
    ensures ours { IsOf shared.now result.0 }
    ensures who { result.0.who ≡ pass.who }
    ensures legal { IsTrue (is_legal (start_of shared.now.start) result.0.seen) }
    ensures ok { IfOk result.1
        (λ next. Answered (L.rows system.now) (start_of shared.now.start) pass.who pending next pass.seen result.0.seen text.old.items text.new.items) }
    ensures singles { IfOk result.1 (λ next. HasSingles (L.rows system.now) next.buffer.cells) }
    ensures err { OnErr result.1 (Asks (start_of shared.now.start) pass.who (calls_of pending) pass.seen result.0.seen) }
    ensures kept { OnErr result.1 (text.new.items ≡ text.old.items) }
{
    let (pass, answers) = ask_all(alloc, rt, shared, pass, pending.calls());
    match answers {
        Err(refused) => (pass, Err(refused)),
        Ok(replies) => (pass, finish_key(alloc, system, text, pending, replies)),
    }
}

/// What the replies make of the editor, and the line of the key printed.
fn finish_key<L: Lexicon>(
    alloc: Global,
    system: &L,
    text: &mut Vec<u8>,
    pending: Pending,
    replies: Vec<Reply>,
) -> Result<Editor, NoMemory>
    requires singles { HasSingles (L.rows system.now) pending.editor.buffer.cells }
    requires answers { AreAnswers pending (map reply_of replies.items) }
    ensures editor { IfOk result (λ next. next ≡ (finish (L.rows system.now) pending (map reply_of replies.items)).editor) }
    ensures line { OnOk result (text.new.items ≡ text.old.items ++ line_text (finish (L.rows system.now) pending (map reply_of replies.items)).line) }
    ensures singles { IfOk result (λ next. HasSingles (L.rows system.now) next.buffer.cells) }
    ensures err { OnErr result (text.new.items ≡ text.old.items) }
{
    let (next, line) = finish(alloc, pending, system, replies)?;
    print(text, &line, next)
}
