//! The empty map, shared between a keeper and two contexts.

ghost use Rattle.std.specs.Prelude.{◌≡◌, ◌≤◌, IfOk};
ghost use Rattle.chew_spec_shared.specs.SharedCalls.{IsOf};

use chew_cell::Pass;
use chew_layers::Layers;
use chew_plain::Entry;
use chew_shared::{KeeperPass, Opened, Shared};
use chew_shared_samples::open_empty;
use std::alloc::Global;
use std::process::Abort;
use std::test::Fail;

/// The dictionary, and all its passes.
#[derive(Drop)]
pub(crate) struct Two {
    pub(crate) shared: Shared,
    pub(crate) keeper: KeeperPass,
    pub(crate) first: Pass,
    pub(crate) second: Pass,
}

/// A dictionary that is shared between a keeper and the contexts 1 and 2.
pub(crate) fn open_two(alloc: Global, cap: u32) -> Result<Two, Fail>
    requires { cap ≤ 200_000 }
    ensures seats { IfOk result (λ two. two.shared.seats ≡ 3) }
    ensures keeper { IfOk result (λ two. IsOf two.shared two.keeper × (two.keeper.who ≡ 0)) }
    ensures first { IfOk result (λ two. IsOf two.shared two.first × (two.first.who ≡ 1)) }
    ensures second { IfOk result (λ two. IsOf two.shared two.second × (two.second.who ≡ 2)) }
{
    let Opened {
        shared,
        keeper,
        mut passes,
    } = open_empty(alloc, cap, 2)?;
    let (Some(second), Some(first)) = (passes.pop(), passes.pop()) else {
        return Err(Fail::new("not two passes"));
    };
    if first.who() != 1 {
        return Err(Fail::new("another number than 1"));
    }
    if second.who() != 2 {
        return Err(Fail::new("another number than 2"));
    }
    Ok(Two {
        shared,
        keeper,
        first,
        second,
    })
}

/// The layers at the end.
pub(crate) fn close_two<R: Abort>(
    rt: &R,
    alloc: Global,
    shared: Shared,
    keeper: KeeperPass,
    first: Pass,
    second: Pass,
) -> Layers
    requires seats { shared.seats ≡ 3 }
    requires keeper { IsOf shared keeper × (keeper.who ≡ 0) }
    requires ours { IsOf shared first × IsOf shared second }
{
    match vec![in alloc; first, second] {
        Ok(passes) => shared.close(keeper, passes),
        Err(_) => panic!(rt; "no memory for two passes"),
    }
}

/// Whether the calls were made by these numbers.
pub(crate) fn are_by(journal: &[Entry], numbers: &[u32]) -> bool {
    if journal.len() != numbers.len() {
        return false;
    }
    for (entry, number) in journal.iter().zip(numbers.iter()) {
        if entry.who != *number {
            return false;
        }
    }
    true
}
