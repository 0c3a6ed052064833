//! Contexts that make calls beside each other, and keep what they are told.

ghost use Rattle.std.specs.Prelude.{◌≡◌, ◌≢◌, All, IfOk, vec_len, vec_capacity};
ghost use Rattle.std.specs.Thread.{IsSync};
ghost use Rattle.chew_spec_shared.specs.SharedCalls.{IsOf};

use crate::failure::Failure;
use chew_cell::Pass;
use chew_plain::Reply;
use chew_shared::Shared;
use chew_shared_samples::UserCall;
use std::alloc::Global;
use std::sync::Wait;
use std::thread::{Threads, join};

/// A pass, and the replies that its calls got, in their order.
#[derive(Drop)]
pub(crate) struct Told {
    pub(crate) pass: Pass,
    pub(crate) replies: Vec<Reply>,
}

/// Contexts that were told nothing yet.
pub(crate) fn beginners(
    alloc: Global,
    shared: &Shared,
    mut passes: Vec<Pass>,
) -> Result<Vec<Told>, Failure>
    requires { All (λ p. IsOf shared.now p) passes.items }
    ensures { IfOk result (λ contexts. All (λ t. IsOf shared.now t.pass × (t.pass.who ≢ 0)) contexts.items) }
{
    let mut contexts = Vec::new(alloc);
    'beginning: while let Some(pass) = passes.pop() {
        if pass.who() == 0 {
            return Err(Failure::Passes);
        }
        contexts.push(Told {
            pass,
            replies: Vec::new(alloc),
        })?;
    }
    Ok(contexts)
}

/// Makes a call, and keeps its reply where there is memory: one that isn't kept is missed once the journal is replayed.
fn ask<R: Wait>(rt: &R, shared: &Shared, context: Told, call: &UserCall) -> Told
    requires ours { IsOf shared.now context.pass }
    requires context { context.pass.who ≢ 0 }
    ensures ours { IsOf shared.now result.pass }
    ensures who { result.pass.who ≡ context.pass.who }
{
    let Told { pass, mut replies } = context;
    let (pass, reply) = shared.ask(rt, pass, call.call());
    if let Ok(reply) = reply {
        let _ = replies.push(reply);
    }
    Told { pass, replies }
}

/// The call that a context makes as its call of this number, by a fixed rule.
fn picked(calls: &[UserCall], who: u32, number: u64) -> Option<&UserCall> {
    let mixed = number
        .wrapping_mul(16)
        .wrapping_add(who as u64)
        .wrapping_mul(0x9E37_79B9_7F4A_7C15);
    let drawn = (mixed >> 40) as usize;
    calls.get(drawn.checked_rem(calls.len())?)
}

/// Makes so many calls, each in a turn of its own.
fn talk<R: Wait>(rt: &R, shared: &Shared, context: Told, calls: &[UserCall], count: u64) -> Told
    requires ours { IsOf shared.now context.pass }
    requires context { context.pass.who ≢ 0 }
    ensures ours { IsOf shared.now result.pass }
    ensures who { result.pass.who ≡ context.pass.who }
{
    let who = context.pass.who();
    let mut context = context;
    'talking: for number in 0..count {
        if let Some(call) = picked(calls, who, number) {
            context = ask(rt, shared, context, call);
        }
    }
    context
}

/// Each context makes its calls in a thread of its own, all of them beside each other.
pub(crate) fn crowd<R: Threads + Wait + Sync>(
    rt: &R,
    shared: &Shared,
    mut contexts: Vec<Told>,
    calls: &[UserCall],
    count: u64,
) -> Vec<Told>
    requires { All (λ t. IsOf shared.now t.pass × (t.pass.who ≢ 0)) contexts.items }
    ensures ours { All (λ t. IsOf shared.now t.pass × (t.pass.who ≢ 0)) result.items }
    ensures len { (vec_len result ≡ vec_len contexts) × (vec_capacity result ≡ vec_capacity contexts) }
{
    match contexts.pop() {
        None => contexts,
        Some(context) => {
            let (mut done, mine) = join(
                rt,
                move || -> Vec<Told>
                    requires { IsSync R.row × All (λ t. (t.pass.cell ≡ shared.now) × (t.pass.who ≢ 0)) contexts.items }
                    ensures { All (λ t. (t.pass.cell ≡ shared.entry.now) × (t.pass.who ≢ 0)) result.items
                        × ((vec_len result ≡ vec_len contexts) × (vec_capacity result ≡ vec_capacity contexts)) }
                { crowd(rt, shared, contexts, calls, count) },
                move || -> Told
                    requires { (context.pass.cell ≡ shared.now) × (context.pass.who ≢ 0) }
                    ensures { (result.pass.cell ≡ shared.entry.now) × (result.pass.who ≡ context.pass.who) }
                { talk(rt, shared, context, calls, count) },
            );
            done.push_reserved(mine);
            done
        }
    }
}
