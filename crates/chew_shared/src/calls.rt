//! The calls of contexts.

ghost use Rattle.std.specs.Prelude.{◌≡◌, ◌≢◌, ◌≤◌, IfOk, IsTrue, OnErr, length};
ghost use Rattle.chew_spec_syllable.specs.Row.{is_pair};
ghost use Rattle.chew_spec_dictionary.specs.Call as calls;
ghost use Rattle.chew_spec_dictionary.specs.History.{is_legal, is_user_call, start_of};
ghost use Rattle.chew_spec_cell.specs.Sight.{HasSeen};
ghost use Rattle.chew_spec_shared.specs.SharedCalls.{Asked, IsOf};
ghost use Rattle.chew_plain.specs.Call.{call_of, reply_of};

use crate::shared::Shared;
use chew_cell::Pass;
use chew_plain::{Call, Reply};
use chew_syllable::{Key, NoMemory, Phrase, Run};
use std::sync::Wait;

impl Shared {
    /// Makes a call of a context, which is a look, a learn, a forget or a hide, in a turn of its own. After `NoMemory` no entry
    /// was made, and the pass comes back having seen at least as much. Whatever is answered, the history that it has seen then is
    /// legal.
    pub fn ask<R: Wait>(&self, rt: &R, pass: Pass, call: &Call) -> (Pass, Result<Reply, NoMemory>)
        requires ours { IsOf self.now pass }
        requires context { pass.who ≢ 0 }
        requires call { IsTrue (is_user_call (call_of call.now)) }
        ensures ours { IsOf self.now result.0 }
        ensures who { result.0.who ≡ pass.who }
        ensures ok { IfOk result.1 (λ reply. Asked pass (call_of call.now) (reply_of reply) result.0.seen) }
        ensures err { OnErr result.1 (HasSeen pass.who pass.seen result.0.seen) }
        ensures legal { IsTrue (is_legal (start_of self.now.start) result.0.seen) }
    {
        let who = pass.who();
        let mut turn = self.cell.enter(rt, pass);
        let reply = turn.value.apply(who, call);
        turn.value.keeps();
        (self.cell.leave(turn), reply)
    }

    /// Looks up all rows of all intervals of the run.
    pub fn look<R: Wait>(&self, rt: &R, pass: Pass, run: &Run) -> (Pass, Result<Reply, NoMemory>)
        requires ours { IsOf self.now pass }
        requires context { pass.who ≢ 0 }
        ensures ours { IsOf self.now result.0 }
        ensures who { result.0.who ≡ pass.who }
        ensures ok { IfOk result.1 (λ reply. Asked pass (calls.Look run.now) (reply_of reply) result.0.seen) }
        ensures err { OnErr result.1 (HasSeen pass.who pass.seen result.0.seen) }
        ensures legal { IsTrue (is_legal (start_of self.now.start) result.0.seen) }
    {
        let _codes = run.list();
        self.ask(rt, pass, &Call::Look(run.copy()))
    }

    /// Learns a phrase of as many characters as its key has syllables. `orig` is the system's frequency of the pair and `peak` its
    /// greatest of the key, each 0 where the system has none.
    pub fn learn<R: Wait>(
        &self,
        rt: &R,
        pass: Pass,
        key: &Key,
        phrase: &Phrase,
        orig: u32,
        peak: u32,
    ) -> (Pass, Result<Reply, NoMemory>)
        requires ours { IsOf self.now pass }
        requires context { pass.who ≢ 0 }
        requires pair { IsTrue (is_pair key.now phrase.now) }
        requires order { orig ≤ peak }
        requires range { peak ≤ 99_999_999 }
        ensures ours { IsOf self.now result.0 }
        ensures who { result.0.who ≡ pass.who }
        ensures ok { IfOk result.1 (λ reply. Asked pass (calls.Learn key.now phrase.now orig peak) (reply_of reply) result.0.seen) }
        ensures err { OnErr result.1 (HasSeen pass.who pass.seen result.0.seen) }
        ensures legal { IsTrue (is_legal (start_of self.now.start) result.0.seen) }
    {
        let call = Call::Learn {
            key: key.copy(),
            phrase: phrase.copy(),
            orig,
            peak,
        };
        self.ask(rt, pass, &call)
    }

    /// Forgets a phrase of as many characters as its key has syllables.
    pub fn forget<R: Wait>(
        &self,
        rt: &R,
        pass: Pass,
        key: &Key,
        phrase: &Phrase,
    ) -> (Pass, Result<Reply, NoMemory>)
        requires ours { IsOf self.now pass }
        requires context { pass.who ≢ 0 }
        requires pair { IsTrue (is_pair key.now phrase.now) }
        ensures ours { IsOf self.now result.0 }
        ensures who { result.0.who ≡ pass.who }
        ensures ok { IfOk result.1 (λ reply. Asked pass (calls.Forget key.now phrase.now) (reply_of reply) result.0.seen) }
        ensures err { OnErr result.1 (HasSeen pass.who pass.seen result.0.seen) }
        ensures legal { IsTrue (is_legal (start_of self.now.start) result.0.seen) }
    {
        let call = Call::Forget {
            key: key.copy(),
            phrase: phrase.copy(),
        };
        self.ask(rt, pass, &call)
    }

    /// Hides a phrase of as many characters as its key has syllables, of which there are at least two.
    pub fn hide<R: Wait>(
        &self,
        rt: &R,
        pass: Pass,
        key: &Key,
        phrase: &Phrase,
    ) -> (Pass, Result<Reply, NoMemory>)
        requires ours { IsOf self.now pass }
        requires context { pass.who ≢ 0 }
        requires pair { IsTrue (is_pair key.now phrase.now) }
        requires long { 2 ≤ length key.now }
        ensures ours { IsOf self.now result.0 }
        ensures who { result.0.who ≡ pass.who }
        ensures ok { IfOk result.1 (λ reply. Asked pass (calls.Hide key.now phrase.now) (reply_of reply) result.0.seen) }
        ensures err { OnErr result.1 (HasSeen pass.who pass.seen result.0.seen) }
        ensures legal { IsTrue (is_legal (start_of self.now.start) result.0.seen) }
    {
        let call = Call::Hide {
            key: key.copy(),
            phrase: phrase.copy(),
        };
        self.ask(rt, pass, &call)
    }
}
