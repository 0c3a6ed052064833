//! The calls of a key.

ghost use Rattle.std.specs.Prelude.{◌≡◌, ◌≢◌, [], IfOk, IsTrue, OnErr, OnOk, map};
ghost use Rattle.std.specs.List.{list_all};
ghost use Rattle.chew_spec_dictionary.specs.Growth.{Made};
ghost use Rattle.chew_spec_dictionary.specs.History.{is_legal, is_user_call, start_of};
ghost use Rattle.chew_spec_shared.specs.SharedCalls.{IsOf};
ghost use Rattle.chew_plain.specs.Call.{call_of, reply_of};
ghost use Rattle.chew_session.specs.Typing.{Asks, Hears};

use chew_cell::Pass;
use chew_plain::{Call, Reply};
use chew_shared::Shared;
use chew_syllable::NoMemory;
use std::alloc::Global;
use std::sync::Wait;

/// Makes calls in order, until memory is refused.
pub(crate) fn ask_all<R: Wait>(
    alloc: Global,
    rt: &R,
    shared: &Shared,
    pass: Pass,
    calls: &[Call],
) -> (Pass, Result<Vec<Reply>, NoMemory>)
    requires ours { IsOf shared.now pass }
    requires context { pass.who ≢ 0 }
    requires legal { IsTrue (is_legal (start_of shared.now.start) pass.seen) }
    requires calls { IsTrue (list_all is_user_call (map call_of calls.now)) }
    ensures ours { IsOf shared.now result.0 }
    ensures who { result.0.who ≡ pass.who }
    ensures legal { IsTrue (is_legal (start_of shared.now.start) result.0.seen) }
    ensures ok { IfOk result.1
        (λ replies. Made (start_of shared.now.start) pass.seen result.0.seen pass.who (map call_of calls.now) (map reply_of replies.items)) }
    ensures err { OnErr result.1 (Asks (start_of shared.now.start) pass.who (map call_of calls.now) pass.seen result.0.seen) }
{
    let mut pass = pass;
    let mut replies = Vec::new(alloc);
    for call in calls {
        let (after, answer) = ask(rt, shared, pass, call, &mut replies);
        pass = after;
        match answer {
            Ok(()) => {}
            Err(refused) => return (pass, Err(refused)),
        }
    }
    (pass, Ok(replies))
}

/// Makes a call, and puts its reply behind the others. Where memory is refused none was made.
fn ask<R: Wait>(
    rt: &R,
    shared: &Shared,
    pass: Pass,
    call: &Call,
    replies: &mut Vec<Reply>,
) -> (Pass, Result<(), NoMemory>)
    requires ours { IsOf shared.now pass }
    requires context { pass.who ≢ 0 }
    requires legal { IsTrue (is_legal (start_of shared.now.start) pass.seen) }
    requires call { IsTrue (is_user_call (call_of call.now)) }
    ensures ours { IsOf shared.now result.0 }
    ensures who { result.0.who ≡ pass.who }
    ensures legal { IsTrue (is_legal (start_of shared.now.start) result.0.seen) }
    ensures ok { OnOk result.1
        (Hears (start_of shared.now.start) pass.who (call_of call.now) pass.seen result.0.seen
        (map reply_of replies.old.items) (map reply_of replies.new.items)) }
    ensures err { OnErr result.1 (Made (start_of shared.now.start) pass.seen result.0.seen pass.who [] []) }
{
    match replies.reserve(1) {
        Err(_) => (pass, Err(NoMemory)),
        Ok(()) => {
            let (pass, answer) = shared.ask(rt, pass, call);
            match answer {
                Err(refused) => (pass, Err(refused)),
                Ok(reply) => {
                    replies.push_reserved(reply);
                    (pass, Ok(()))
                }
            }
        }
    }
}
