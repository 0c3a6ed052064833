//! The calls of a key.

ghost use Rattle.std.specs.Prelude.{◌≡◌, ◌+◌, [], ◌∷◌, ◌++◌, IfOk, IsTrue, OnOk, length, map};
ghost use Rattle.std.specs.List.{list_all};
ghost use Rattle.chew_spec_syllable.specs.Row.{is_row};
ghost use Rattle.chew_spec_dictionary.specs.History.{answer, is_user_call};
ghost use Rattle.chew_spec_editor.specs.Alone.{point_after, replies_from};
ghost use Rattle.chew_spec_editor.specs.Answers.{AreAnswers};
ghost use Rattle.chew_spec_editor.specs.Pending.{calls_of};
ghost use Rattle.chew_plain.specs.Call.{call_of, reply_of};

use chew_editor::Pending;
use chew_plain::{Call, Plain, Reply};
use chew_syllable::NoMemory;
use std::alloc::Global;

/// Makes the calls that the editor waits for.
pub(crate) fn replies_to(
    alloc: Global,
    plain: &mut Plain,
    pending: &Pending,
) -> Result<Vec<Reply>, NoMemory>
    requires { IsTrue (list_all is_row plain.old.dictionary.pairs) }
    ensures replies { IfOk result (λ replies. map reply_of replies.items ≡ replies_from plain.old (calls_of pending.now)) }
    ensures answers { IfOk result (λ replies. AreAnswers pending.now (map reply_of replies.items)) }
    ensures point { OnOk result (plain.new ≡ point_after plain.old (calls_of pending.now)) }
    ensures pairs { OnOk result (IsTrue (list_all is_row plain.new.dictionary.pairs)) }
{
    let mut replies = Vec::new(alloc);
    ask_all(plain, pending.calls(), &mut replies)?;
    Ok(replies)
}

/// Makes calls, one after another, and puts their replies behind the others.
fn ask_all(plain: &mut Plain, calls: &[Call], replies: &mut Vec<Reply>) -> Result<(), NoMemory>
    requires { IsTrue (list_all is_user_call (map call_of calls.now)) }
    ensures replies { OnOk result (map reply_of replies.new.items ≡ map reply_of replies.old.items ++ replies_from plain.old (map call_of calls.now)) }
    ensures point { OnOk result (plain.new ≡ point_after plain.old (map call_of calls.now)) }
{
    match calls {
        [] => Ok(()),
        [call, rest @ ..] => {
            ask(plain, call, replies)?;
            ask_all(plain, rest, replies)
        }
    }
}

/// Makes a call, and puts its reply behind the others.
fn ask(plain: &mut Plain, call: &Call, replies: &mut Vec<Reply>) -> Result<(), NoMemory>
    requires { IsTrue (is_user_call (call_of call.now)) }
    ensures reply { OnOk result (map reply_of replies.new.items ≡ map reply_of replies.old.items ++ (answer plain.old (call_of call.now)).reply ∷ []) }
    ensures point { OnOk result (plain.new ≡ (answer plain.old (call_of call.now)).point) }
{
    let reply = plain.apply(call)?;
    replies.push(reply)?;
    Ok(())
}

/// A count, and the calls that a key asks besides. A sum that is no `u64` is told as want of memory, which none has for so many.
pub(crate) fn with_calls(made: u64, pending: &Pending) -> Result<u64, NoMemory>
    ensures { IfOk result (λ sum. sum ≡ made + length (calls_of pending.now)) }
{
    match made.checked_add(calls_asked(pending)) {
        Some(sum) => Ok(sum),
        None => Err(NoMemory),
    }
}

/// How many calls a key asks.
fn calls_asked(pending: &Pending) -> u64
    ensures { result ≡ length (calls_of pending.now) }
{
    pending.calls().len() as u64
}
