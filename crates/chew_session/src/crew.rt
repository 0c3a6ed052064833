//! Contexts that type beside each other.

ghost use Rattle.std.specs.Prelude.{◌≡◌, ◌≤◌, All, IsTrue, length, map, take, vec_capacity, vec_len};
ghost use Rattle.std.specs.List.{list_all, range_with_len};
ghost use Rattle.chew_spec_text.specs.KeyStroke.{is_key_stroke};
ghost use Rattle.chew_spec_shared.specs.SharedCalls.{IsOf};
ghost use Rattle.chew_script.specs.Keys.{keys_of};
ghost use Rattle.chew_session.specs.Crew.{AreDone, IsFresh, MayType, basis_of, context_passes, keys_at, keys_of_all};
ghost use Rattle.chew_session.specs.Typing.{Ran};

use crate::actor::Actor;
use crate::context::run_context;
use crate::context_end::ContextEnd;
use crate::each::run_each;
use crate::ended::ContextEnds;
use chew_cell::Pass;
use chew_outside::Gate;
use chew_plain::Lexicon;
use chew_settings::Settings;
use chew_shared::Shared;
use std::alloc::Global;
use std::sync::Wait;
use std::thread::Threads;

/// The context of a number, counted from 1.
fn actor_of(actors: &[Actor], who: u32) -> &Actor
    requires from_one { 1 ≤ who }
    requires within { who ≤ length actors.now }
    requires order { map (λ actor. actor.who) actors.now ≡ range_with_len 1 (length actors.now) }
    requires few { All (λ actor. length actor.keys.items ≤ 65_536) actors.now }
    requires keys { All (λ actor. IsTrue (list_all is_key_stroke (keys_of actor.keys.items))) actors.now }
    ensures number { result.now.who ≡ who }
    ensures few { length result.now.keys.items ≤ 65_536 }
    ensures keys { IsTrue (list_all is_key_stroke (keys_of result.now.keys.items)) }
    ensures same { keys_of result.now.keys.items ≡ keys_at (keys_of_all actors.now) who }
{
    &actors[who as usize - 1]
}

/// Has as many contexts as there are passes type, the first ones, each in a thread of its own where one can be had.
pub(crate) fn run_contexts<R: Threads + Wait + Sync, L: Lexicon + Sync, G: Gate>(
    alloc: Global,
    rt: &R,
    system: &L,
    settings: &Settings,
    shared: &Shared,
    gate: &G,
    actors: &[Actor],
    passes: Vec<Pass>,
) -> (Vec<Pass>, ContextEnds)
    requires ready { MayType shared.now settings.now actors.now }
    requires few { length actors.now ≤ 16 }
    requires enough { vec_len passes ≤ length actors.now }
    requires passes { passes.items ≡ context_passes shared.now (vec_len passes) }
    ensures len { (vec_len result.0 ≡ vec_len passes) × (vec_capacity result.0 ≡ vec_capacity passes) }
    ensures done { AreDone (basis_of (L.rows system.now) settings.now shared.now) shared.now
        (take (vec_len passes) (keys_of_all actors.now)) result.0.items result.1.items }
{
    let type_with = |pass: Pass| -> (Pass, ContextEnd)
        requires { MayType shared.now settings.now actors.now × IsFresh shared.now (length actors.now) pass }
        ensures { IsOf shared.entry.now result.0 × (result.0.who ≡ pass.who)
            × Ran (basis_of (L.rows system.entry.now) settings.entry.now shared.entry.now) pass.who
            (keys_at (keys_of_all actors.entry.now) pass.who) result.0.seen result.1 }
    {
        let actor = actor_of(actors, pass.who());
        run_context(alloc, rt, system, settings, shared, gate, actor, pass)
    };
    run_each(alloc, rt, passes, &type_with)
}
