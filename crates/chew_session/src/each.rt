//! Contexts beside each other, each to an end of its own.

ghost use Rattle.std.specs.Prelude.{◌≡◌, ◌≤◌, ◌++◌, [], ◌∷◌, All, IfNone, IfSome, vec_capacity, vec_len};
ghost use Rattle.std.specs.Thread.{IsSync};
ghost use Rattle.chew_session.specs.Crew.{EachAnswered};

use crate::context_end::ContextEnd;
use crate::ended::ContextEnds;
use arrayvec::ArrayVec;
use chew_cell::Pass;
use std::alloc::Global;
use std::thread::{Threads, join};

/// The last pass, and those before it.
fn take_last(mut passes: Vec<Pass>) -> (Vec<Pass>, Option<Pass>)
    ensures capacity { vec_capacity result.0 ≡ vec_capacity passes }
    ensures none { IfNone result.1 ((passes.items ≡ []) × (result.0.items ≡ [])) }
    ensures some { IfSome result.1 (λ pass. passes.items ≡ result.0.items ++ pass ∷ []) }
{
    let last = passes.pop();
    (passes, last)
}

/// Has a context type with each of these passes, in a thread of its own where one can be had. How one ends is what its own
/// typing answers: that memory was refused to another doesn't end it.
pub(crate) fn run_each<R: Threads + Sync, T: Fn(Pass) -> (Pass, ContextEnd) + Sync>(
    alloc: Global,
    rt: &R,
    passes: Vec<Pass>,
    type_with: &T,
) -> (Vec<Pass>, ContextEnds)
    requires few { vec_len passes ≤ 16 }
    requires may { All (T.pre type_with.now) passes.items }
    ensures len { (vec_len result.0 ≡ vec_len passes) × (vec_capacity result.0 ≡ vec_capacity passes) }
    ensures each { EachAnswered (T.post type_with.now) passes.items result.0.items result.1.items }
{
    let (passes, last) = take_last(passes);
    match last {
        None => (passes, ArrayVec::new_in(alloc)),
        Some(pass) => {
            let ((mut done, mut ends), (mine, end)) = join(
                rt,
                move || -> (Vec<Pass>, ContextEnds)
                    requires { IsSync R.row × IsSync T.row × (vec_len passes ≤ 16) × All (T.pre type_with.now) passes.items }
                    ensures { ((vec_len result.0 ≡ vec_len passes) × (vec_capacity result.0 ≡ vec_capacity passes))
                        × EachAnswered (T.post type_with.entry.now) passes.items result.0.items result.1.items }
                { run_each(alloc, rt, passes, type_with) },
                move || -> (Pass, ContextEnd)
                    requires { T.pre type_with.now pass }
                    ensures { T.post type_with.entry.now pass result }
                { type_with(pass) },
            );
            done.push_reserved(mine);
            ends.push(end);
            (done, ends)
        }
    }
}
