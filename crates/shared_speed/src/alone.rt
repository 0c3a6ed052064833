ghost use Rattle.std.specs.Prelude.{◌≤◌, length};

use crate::calls::call_after;
use crate::figures::{Measured, Spent};
use chew_layers::Layers;
use chew_measuring::Failure;
use chew_shared_samples::UserCall;
use chew_syllable::USER_ROWS_LIMIT;
use chew_trie_read::Trie;
use std::alloc::AllocGlobal;
use std::sync::Arc;
use std::time::{Clock, CpuClock, Duration};

/// The most pairs of a user's dictionary.
pub(crate) const CAP: u32 = USER_ROWS_LIMIT;

/// The number of who makes the calls.
const USER: u32 = 1;

/// Makes so many calls, and tells how many were answered.
fn make_all(layers: &mut Layers, calls: &[UserCall], count: u64) -> u64 {
    let mut answered = 0u64;
    for number in 0..count {
        if let Some(call) = call_after(calls, number) {
            if layers.apply(USER, call.call()).is_ok() {
                answered = answered.saturating_add(1);
            }
        }
    }
    answered
}

/// Makes so many calls, and measures them.
fn measure_layers<R: Clock + CpuClock>(
    rt: &R,
    layers: &mut Layers,
    calls: &[UserCall],
    count: u64,
) -> Result<Measured, Failure> {
    let start = Spent::now(rt)?;
    let answered = make_all(layers, calls, count);
    let spent = Spent::now(rt)?.since(&start);
    Ok(Measured {
        answered,
        spent,
        longest: Duration::ZERO,
    })
}

/// Measures the calls of layers that nobody shares.
pub(crate) fn measure_alone<R: Clock + CpuClock + AllocGlobal>(
    rt: &R,
    map: Trie,
    calls: &[UserCall],
    count: u64,
) -> Result<Measured, Failure>
    requires { length map ≤ 200_000 }
{
    let mut layers = Layers::of(rt.alloc(), Arc::new(rt.alloc(), map)?, 0, CAP);
    measure_layers(rt, &mut layers, calls, count)
}
