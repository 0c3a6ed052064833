//! Look-ups that are made in the thread that asks, or in one of their own.

ghost use Rattle.std.specs.Prelude.{◌≡◌, ◌≢◌};
ghost use Rattle.std.specs.Thread.{IsSync};
ghost use Rattle.chew_spec_shared.specs.SharedCalls.{IsOf};

use chew_cell::Pass;
use chew_plain::Reply;
use chew_shared::Shared;
use chew_syllable::{NoMemory, Run};
use std::sync::Wait;
use std::thread::{Threads, join};

/// Where a look-up is made.
#[derive(Clone, Copy, Debug, Drop)]
pub(crate) enum Place {
    /// In the thread that asks.
    Here,
    /// In a thread of its own, which is handed the pass and is joined before the next call.
    Apart,
}

/// Looks up the run in a thread of its own.
fn look_apart<R: Threads + Wait + Sync>(
    rt: &R,
    shared: &Shared,
    pass: Pass,
    run: &Run,
) -> (Pass, Result<Reply, NoMemory>)
    requires ours { IsOf shared.now pass }
    requires context { pass.who ≢ 0 }
    ensures ours { IsOf shared.now result.0 }
    ensures who { result.0.who ≡ pass.who }
{
    let (looked, _) = join(
        rt,
        move || -> (Pass, Result<Reply, NoMemory>)
            requires { IsSync R.row × (pass.cell ≡ shared.now) × (pass.who ≢ 0) }
            ensures { (result.0.cell ≡ shared.entry.now) × (result.0.who ≡ pass.who) }
        { shared.look(rt, pass, run) },
        || {},
    );
    looked
}

/// Looks up the run.
pub(crate) fn look<R: Threads + Wait + Sync>(
    rt: &R,
    place: Place,
    shared: &Shared,
    pass: Pass,
    run: &Run,
) -> (Pass, Result<Reply, NoMemory>)
    requires ours { IsOf shared.now pass }
    requires context { pass.who ≢ 0 }
    ensures ours { IsOf shared.now result.0 }
    ensures who { result.0.who ≡ pass.who }
{
    match place {
        Place::Here => shared.look(rt, pass, run),
        Place::Apart => look_apart(rt, shared, pass, run),
    }
}
