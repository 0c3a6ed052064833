//! Contexts that call a dictionary while its keeper makes rounds, each call timed.

ghost use Rattle.std.specs.Prelude.{◌≡◌, ◌≢◌, ◌≤◌, All, IfOk, length};
ghost use Rattle.std.specs.Thread.{IsSync};
ghost use Rattle.chew_spec_shared.specs.SharedCalls.{IsOf};

use crate::alone::CAP;
use crate::contexts::{Context, Course, crowd, measured, unheard};
use crate::figures::{Measured, Spent};
use chew_measuring::Failure;
use chew_shared::{KeeperPass, Opened, Shared};
use chew_shared_samples::{UserCall, install_merge};
use chew_syllable::NoMemory;
use chew_trie_read::Trie;
use std::alloc::{AllocGlobal, Global};
use std::sync::Wait;
use std::thread::{Threads, join};
use std::time::{Clock, CpuClock};

/// How many contexts there are, and how many rounds the keeper makes.
pub(crate) const CONTEXTS: u32 = 16;

const ROUNDS: u32 = 8;

/// A round of the keeper: it freezes, merges what then waits, and installs that.
fn round<R: Wait>(
    rt: &R,
    alloc: Global,
    shared: &Shared,
    keeper: KeeperPass,
) -> Result<KeeperPass, NoMemory>
    requires ours { IsOf shared.now keeper }
    requires keeper { keeper.who ≡ 0 }
    ensures ours { IfOk result (λ keeper. IsOf shared.now keeper) }
    ensures keeper { IfOk result (λ keeper. keeper.who ≡ 0) }
{
    let (keeper, snapshot) = shared.freeze(rt, keeper);
    let snapshot = snapshot?;
    let (keeper, _rows) = install_merge(rt, alloc, shared, keeper, &snapshot)?;
    Ok(keeper)
}

/// All rounds of the keeper. Whether there was memory for them.
fn keep<R: Wait>(rt: &R, alloc: Global, shared: &Shared, keeper: KeeperPass) -> Result<(), NoMemory>
    requires ours { IsOf shared.now keeper }
    requires keeper { keeper.who ≡ 0 }
{
    let mut keeper = keeper;
    'keeping: for _round in 0..ROUNDS {
        keeper = round(rt, alloc, shared, keeper)?;
    }
    Ok(())
}

/// Has each context make its calls, and the keeper its rounds, in threads of their own.
fn all_beside<R: Threads + Wait + Clock + Sync>(
    rt: &R,
    alloc: Global,
    shared: &Shared,
    keeper: KeeperPass,
    contexts: Vec<Context>,
    calls: &[UserCall],
    course: Course,
) -> (Vec<Context>, Result<(), NoMemory>)
    requires contexts { All (λ t. IsOf shared.now t.pass × (t.pass.who ≢ 0)) contexts.items }
    requires ours { IsOf shared.now keeper }
    requires keeper { keeper.who ≡ 0 }
{
    join(
        rt,
        move || -> Vec<Context>
            requires { IsSync R.row × All (λ t. (t.pass.cell ≡ shared.now) × (t.pass.who ≢ 0)) contexts.items }
        { crowd(rt, shared, contexts, calls, course) },
        move || -> Result<(), NoMemory>
            requires { (keeper.cell ≡ shared.now) × (keeper.who ≡ 0) }
        { keep(rt, alloc, shared, keeper) },
    )
}

/// Has these contexts make their calls beside the keeper's rounds, and measures them.
fn measure_calls<R: Clock + CpuClock + AllocGlobal + Threads + Wait + Sync>(
    rt: &R,
    shared: &Shared,
    keeper: KeeperPass,
    contexts: Vec<Context>,
    calls: &[UserCall],
    course: Course,
) -> Result<Measured, Failure>
    requires contexts { All (λ t. IsOf shared.now t.pass × (t.pass.who ≢ 0)) contexts.items }
    requires ours { IsOf shared.now keeper }
    requires keeper { keeper.who ≡ 0 }
{
    let start = Spent::now(rt)?;
    let (done, kept) = all_beside(rt, rt.alloc(), shared, keeper, contexts, calls, course);
    kept?;
    let spent = Spent::now(rt)?.since(&start);
    Ok(measured(done.as_slice(), spent))
}

/// Measures the calls of sixteen contexts of one shared dictionary while its keeper merges it and installs the merges.
#[tactic(auto, using(chew_shared_samples::proofs::Passes::ours_behind))]
pub(crate) fn measure_beside<R: Clock + CpuClock + AllocGlobal + Threads + Wait + Sync>(
    rt: &R,
    map: Trie,
    calls: &[UserCall],
    count: u64,
) -> Result<Measured, Failure>
    requires map { length map ≤ 200_000 }
{
    let Opened {
        shared,
        keeper,
        passes,
    } = Shared::open(rt.alloc(), map, 0, CAP, CONTEXTS)?;
    let beginners = unheard(rt.alloc(), &shared, passes)?;
    let course = Course {
        count: count.checked_div(u64::from(CONTEXTS)).unwrap_or(0),
        is_timed: true,
    };
    measure_calls(rt, &shared, keeper, beginners, calls, course)
}
