ghost use Rattle.std.specs.Prelude.{◌≡◌, ◌≢◌, ◌≤◌, All, IfOk, length, vec_len, vec_capacity};
ghost use Rattle.std.specs.Thread.{IsSync};
ghost use Rattle.chew_spec_shared.specs.SharedCalls.{IsOf};

use crate::alone::CAP;
use crate::calls::call_after;
use crate::figures::{Measured, Spent};
use chew_cell::Pass;
use chew_measuring::Failure;
use chew_shared::{Opened, Shared};
use chew_shared_samples::UserCall;
use chew_trie_read::Trie;
use std::alloc::{AllocGlobal, Global};
use std::sync::Wait;
use std::thread::{Threads, join};
use std::time::{Clock, CpuClock, Duration};

/// How far the calls with which two contexts begin are from each other.
const APART: u64 = 7919;

/// A pass, how many of its calls were answered, and how long the longest took.
#[derive(Drop)]
pub(crate) struct Context {
    pub(crate) pass: Pass,
    pub(crate) answered: u64,
    pub(crate) longest: Duration,
}

/// How calls are made: so many by each context, and each of them timed or not.
#[derive(Clone, Copy, Drop)]
pub(crate) struct Course {
    pub(crate) count: u64,
    pub(crate) is_timed: bool,
}

/// The time, if calls are timed.
fn moment<R: Clock>(rt: &R, course: Course) -> Duration {
    if course.is_timed {
        rt.monotonic().unwrap_or(Duration::ZERO)
    } else {
        Duration::ZERO
    }
}

/// The longer of two times.
pub(crate) fn longer(one: Duration, other: Duration) -> Duration {
    if one < other { other } else { one }
}

/// Contexts that made no call yet, of these passes, which the keeper has none of.
pub(crate) fn unheard(
    alloc: Global,
    shared: &Shared,
    mut passes: Vec<Pass>,
) -> Result<Vec<Context>, Failure>
    requires { All (λ p. IsOf shared.now p) passes.items }
    ensures { IfOk result (λ contexts. All (λ t. IsOf shared.now t.pass × (t.pass.who ≢ 0)) contexts.items) }
{
    let mut contexts = Vec::new(alloc);
    'beginning: while let Some(pass) = passes.pop() {
        if pass.who() != 0 {
            contexts.push(Context {
                pass,
                answered: 0,
                longest: Duration::ZERO,
            })?;
        }
    }
    Ok(contexts)
}

/// Makes a call.
fn ask<R: Wait + Clock>(
    rt: &R,
    shared: &Shared,
    context: Context,
    call: &UserCall,
    course: Course,
) -> Context
    requires ours { IsOf shared.now context.pass }
    requires context { context.pass.who ≢ 0 }
    ensures ours { IsOf shared.now result.pass }
    ensures who { result.pass.who ≡ context.pass.who }
{
    let start = moment(rt, course);
    let (pass, reply) = shared.ask(rt, context.pass, call.call());
    let took = moment(rt, course).saturating_sub(start);
    Context {
        pass,
        answered: context.answered.saturating_add(u64::from(reply.is_ok())),
        longest: longer(context.longest, took),
    }
}

/// Makes so many calls, each in a turn of its own.
fn talk<R: Wait + Clock>(
    rt: &R,
    shared: &Shared,
    context: Context,
    calls: &[UserCall],
    course: Course,
) -> Context
    requires ours { IsOf shared.now context.pass }
    requires context { context.pass.who ≢ 0 }
    ensures ours { IsOf shared.now result.pass }
    ensures who { result.pass.who ≡ context.pass.who }
{
    let first = u64::from(context.pass.who()).wrapping_mul(APART);
    let mut context = context;
    'talking: for number in 0..course.count {
        if let Some(call) = call_after(calls, first.wrapping_add(number)) {
            context = ask(rt, shared, context, call, course);
        }
    }
    context
}

/// Each context makes its calls in a thread of its own, all of them beside each other.
pub(crate) fn crowd<R: Threads + Wait + Clock + Sync>(
    rt: &R,
    shared: &Shared,
    mut contexts: Vec<Context>,
    calls: &[UserCall],
    course: Course,
) -> Vec<Context>
    requires { All (λ t. IsOf shared.now t.pass × (t.pass.who ≢ 0)) contexts.items }
    ensures ours { All (λ t. IsOf shared.now t.pass × (t.pass.who ≢ 0)) result.items }
    ensures len { (vec_len result ≡ vec_len contexts) × (vec_capacity result ≡ vec_capacity contexts) }
{
    match contexts.pop() {
        None => contexts,
        Some(context) => {
            let (mut done, mine) = join(
                rt,
                move || -> Vec<Context>
                    requires { IsSync R.row × All (λ t. (t.pass.cell ≡ shared.now) × (t.pass.who ≢ 0)) contexts.items }
                    ensures { All (λ t. (t.pass.cell ≡ shared.entry.now) × (t.pass.who ≢ 0)) result.items
                        × ((vec_len result ≡ vec_len contexts) × (vec_capacity result ≡ vec_capacity contexts)) }
                { crowd(rt, shared, contexts, calls, course) },
                move || -> Context
                    requires { (context.pass.cell ≡ shared.now) × (context.pass.who ≢ 0) }
                    ensures { (result.pass.cell ≡ shared.entry.now) × (result.pass.who ≡ context.pass.who) }
                { talk(rt, shared, context, calls, course) },
            );
            done.push_reserved(mine);
            done
        }
    }
}

/// How many calls were answered in all, what they took, and how long the longest did.
pub(crate) fn measured(contexts: &[Context], spent: Spent) -> Measured {
    let mut answered = 0u64;
    let mut longest = Duration::ZERO;
    for context in contexts {
        answered = answered.saturating_add(context.answered);
        longest = longer(longest, context.longest);
    }
    Measured {
        answered,
        spent,
        longest,
    }
}

/// Has these contexts make so many calls each, and measures them.
fn measure_crowd<R: Clock + CpuClock + Threads + Wait + Sync>(
    rt: &R,
    shared: &Shared,
    contexts: Vec<Context>,
    calls: &[UserCall],
    course: Course,
) -> Result<Measured, Failure>
    requires { All (λ t. IsOf shared.now t.pass × (t.pass.who ≢ 0)) contexts.items }
{
    let start = Spent::now(rt)?;
    let done = crowd(rt, shared, contexts, calls, course);
    let spent = Spent::now(rt)?.since(&start);
    Ok(measured(done.as_slice(), spent))
}

/// Measures the calls of so many contexts of one shared dictionary, each in a thread of its own.
#[tactic(auto, using(chew_shared_samples::proofs::Passes::ours_behind))]
pub(crate) fn measure_contexts<R: Clock + CpuClock + AllocGlobal + Threads + Wait + Sync>(
    rt: &R,
    map: Trie,
    contexts: u32,
    calls: &[UserCall],
    count: u64,
) -> Result<Measured, Failure>
    requires map { length map ≤ 200_000 }
    requires contexts { contexts ≤ 16 }
{
    let Opened {
        shared,
        keeper: _keeper,
        passes,
    } = Shared::open(rt.alloc(), map, 0, CAP, contexts)?;
    let beginners = unheard(rt.alloc(), &shared, passes)?;
    let course = Course {
        count: count.checked_div(u64::from(contexts)).unwrap_or(0),
        is_timed: false,
    };
    measure_crowd(rt, &shared, beginners, calls, course)
}
