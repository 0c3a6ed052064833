//! All contexts beside each other, and the keeper beside them.

ghost use Rattle.std.specs.Prelude.{◌≡◌, ◌≢◌, All, IfOk};
ghost use Rattle.std.specs.Thread.{IsSync};
ghost use Rattle.chew_spec_shared.specs.SharedCalls.{IsOf};

use crate::contexts::{Told, crowd};
use crate::rounds::keep;
use chew_shared::{KeeperPass, Shared};
use chew_shared_samples::UserCall;
use chew_syllable::NoMemory;
use std::alloc::Global;
use std::sync::Wait;
use std::thread::{Threads, join};

/// How many calls each context makes, and how many rounds the keeper.
const CALLS: u64 = 2000;

const ROUNDS: u64 = 400;

/// Has each context make its calls, and the keeper its rounds, in threads of their own.
pub(crate) fn all_beside<R: Threads + Wait + Sync>(
    rt: &R,
    alloc: Global,
    shared: &Shared,
    keeper: KeeperPass,
    contexts: Vec<Told>,
    calls: &[UserCall],
) -> (Vec<Told>, Result<Told, NoMemory>)
    requires contexts { All (λ t. IsOf shared.now t.pass × (t.pass.who ≢ 0)) contexts.items }
    requires ours { IsOf shared.now keeper }
    requires keeper { keeper.who ≡ 0 }
    ensures contexts { All (λ t. IsOf shared.now t.pass × (t.pass.who ≢ 0)) result.0.items }
    ensures ours { IfOk result.1 (λ kept. IsOf shared.now kept.pass) }
    ensures keeper { IfOk result.1 (λ kept. kept.pass.who ≡ 0) }
{
    join(
        rt,
        move || -> Vec<Told>
            requires { IsSync R.row × All (λ t. (t.pass.cell ≡ shared.now) × (t.pass.who ≢ 0)) contexts.items }
            ensures { All (λ t. (t.pass.cell ≡ shared.entry.now) × (t.pass.who ≢ 0)) result.items }
        { crowd(rt, shared, contexts, calls, CALLS) },
        move || -> Result<Told, NoMemory>
            requires { (keeper.cell ≡ shared.now) × (keeper.who ≡ 0) }
            ensures { IfOk result (λ kept. (kept.pass.cell ≡ shared.entry.now) × (kept.pass.who ≡ 0)) }
        { keep(rt, alloc, shared, keeper, ROUNDS) },
    )
}
