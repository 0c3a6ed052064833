//! The contexts and the keeper's rounds beside each other.

ghost use Rattle.std.specs.Prelude.{◌≡◌, ◌≤◌, [], IfSome, IsSomeAnd, length, map, take, vec_capacity, vec_len};
ghost use Rattle.std.specs.Thread.{IsSync};
ghost use Rattle.arrayvec.specs.ArrayVec.{array_vec_len};
ghost use Rattle.chew_spec_shared.specs.SharedCalls.{IsOf};
ghost use Rattle.chew_checkpoint.specs.Answers.{round_of};
ghost use Rattle.chew_session.specs.Crew.{AreDone, MayType, basis_of, context_passes, keys_of_all};
ghost use Rattle.chew_session.specs.Saving.{MakeAll, stage};

use crate::actor::Actor;
use crate::crew::run_contexts;
use crate::ended::ContextEnds;
use crate::worker::Worker;
use chew_cell::Pass;
use chew_outside::{Disk, Gate};
use chew_plain::Lexicon;
use chew_settings::Settings;
use chew_shared::Shared;
use std::alloc::Global;
use std::mem;
use std::sync::Wait;
use std::thread::{Threads, join_mut};

/// Has all contexts type, and the keeper make so many rounds beside them.
pub(crate) fn run_beside<R: Threads + Wait + Sync, L: Lexicon + Sync, D: Disk, G: Gate>(
    alloc: Global,
    rt: &R,
    system: &L,
    settings: &Settings,
    shared: &Shared,
    gate: &G,
    actors: &[Actor],
    passes: Vec<Pass>,
    worker: Worker,
    rounds: u32,
    disk: &mut D,
) -> ((Vec<Pass>, ContextEnds), Worker)
    requires ready { MayType shared.now settings.now actors.now }
    requires few { length actors.now ≤ 16 }
    requires enough { vec_len passes ≤ length actors.now }
    requires passes { passes.items ≡ context_passes shared.now (vec_len passes) }
    requires ours { IsOf shared.now worker.keeper }
    requires keeper { worker.keeper.who ≡ 0 }
    requires none { worker.made.items ≡ [] }
    requires few_rounds { rounds ≤ 64 }
    ensures len { (vec_len result.0.0 ≡ vec_len passes) × (vec_capacity result.0.0 ≡ vec_capacity passes) }
    ensures done { AreDone (basis_of (L.rows system.now) settings.now shared.now) shared.now
        (take (vec_len passes) (keys_of_all actors.now)) result.0.0.items result.0.1.items }
    ensures ours { IsOf shared.now result.1.keeper }
    ensures keeper { result.1.keeper.who ≡ 0 }
    ensures told { D.told disk.new ≡ D.told disk.old }
    ensures count { array_vec_len result.1.made ≡ rounds }
    ensures makes { MakeAll shared.now.start (D.told disk.old)
        (stage worker.checkpointer (D.state disk.old) (D.faults disk.old) worker.keeper) (map round_of result.1.made.items)
        (stage result.1.checkpointer (D.state disk.new) (D.faults disk.new) result.1.keeper) }
{
    let mut waiting = passes;
    let mut resting = Some(worker);
    join_mut(
        rt,
        &mut || -> (Vec<Pass>, ContextEnds)
            requires { IsSync R.row × IsSync L.row × IsSync G.row × MayType shared.now settings.now actors.now × (length actors.now ≤ 16)
                × (vec_len waiting ≤ length actors.now) × (waiting.items ≡ context_passes shared.now (vec_len waiting)) }
            ensures { ((vec_len result.0 ≡ vec_len waiting.entry) × (vec_capacity result.0 ≡ vec_capacity waiting.entry))
                × AreDone (basis_of (L.rows system.entry.now) settings.entry.now shared.entry.now) shared.entry.now
                (take (vec_len waiting.entry) (keys_of_all actors.entry.now)) result.0.items result.1.items }
        {
            let passes = mem::replace(&mut waiting, Vec::new(alloc));
            run_contexts(alloc, rt, system, settings, shared, gate, actors, passes)
        },
        &mut || -> Worker
            requires { IsSomeAnd resting (λ worker. IsOf shared.now worker.keeper × (worker.keeper.who ≡ 0) × (worker.made.items ≡ [])) × (rounds ≤ 64) }
            ensures { IsOf shared.entry.now result.keeper × (result.keeper.who ≡ 0) × (D.told disk.exit.now ≡ D.told disk.entry.now)
                × (array_vec_len result.made ≡ rounds)
                × IfSome resting.entry (λ worker. MakeAll shared.entry.now.start (D.told disk.entry.now)
                (stage worker.checkpointer (D.state disk.entry.now) (D.faults disk.entry.now) worker.keeper) (map round_of result.made.items)
                (stage result.checkpointer (D.state disk.exit.now) (D.faults disk.exit.now) result.keeper)) }
        {
            match resting.take() {
                Some(worker) => worker.rounds(alloc, rt, shared, gate, rounds, disk),
                None => unreachable!(),
            }
        },
    )
}
