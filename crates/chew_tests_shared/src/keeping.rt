//! The keeper's calls, whose answers are compared.

ghost use Rattle.std.specs.Prelude.{◌≡◌, ◌≤◌, length};
ghost use Rattle.std.specs.Arc.{arc_value};
ghost use Rattle.chew_spec_layers.specs.Overlay.{overlay};
ghost use Rattle.chew_spec_shared.specs.SharedCalls.{IsOf};
ghost use Rattle.chew_spec_shared.specs.Snapshot.{IsSnapshot};

use chew_layers::{Need, Snapshot};
use chew_shared::{KeeperPass, Shared};
use chew_shared_samples::install_merge;
use std::alloc::Global;
use std::process::Abort;
use std::sync::Wait;

/// The keeper freezes, and so many calls came before.
pub(crate) fn freeze<R: Abort + Wait>(
    rt: &R,
    shared: &Shared,
    keeper: KeeperPass,
    upto: u64,
) -> (KeeperPass, Snapshot)
    requires ours { IsOf shared.now keeper }
    requires keeper { keeper.who ≡ 0 }
    ensures ours { IsOf shared.now result.0 }
    ensures keeper { result.0.who ≡ 0 }
    ensures snapshot { IsSnapshot shared.now.start result.0.seen (arc_value result.1.base)
        (record { marks = arc_value result.1.frozen; number = result.1.upto; life = result.1.life }) }
    ensures few { length (overlay (arc_value result.1.base) (arc_value result.1.frozen)) ≤ 200_000 }
{
    let (keeper, frozen) = shared.freeze(rt, keeper);
    match frozen {
        Ok(snapshot) => {
            assert_eq!(rt; snapshot.upto, upto);
            (keeper, snapshot)
        }
        Err(_) => panic!(rt; "no memory for a freeze"),
    }
}

/// The keeper merges what waits, which has so many rows, and installs it.
pub(crate) fn install<R: Abort + Wait>(
    rt: &R,
    alloc: Global,
    shared: &Shared,
    keeper: KeeperPass,
    snapshot: &Snapshot,
    wanted: u32,
) -> KeeperPass
    requires ours { IsOf shared.now keeper }
    requires keeper { keeper.who ≡ 0 }
    requires snapshot { IsSnapshot shared.now.start keeper.seen (arc_value snapshot.now.base)
        (record { marks = arc_value snapshot.now.frozen; number = snapshot.now.upto; life = snapshot.now.life }) }
    requires few { length (overlay (arc_value snapshot.now.base) (arc_value snapshot.now.frozen)) ≤ 200_000 }
    ensures ours { IsOf shared.now result }
    ensures keeper { result.who ≡ 0 }
{
    match install_merge(rt, alloc, shared, keeper, snapshot) {
        Ok((keeper, rows)) => {
            assert_eq!(rt; rows, wanted);
            keeper
        }
        Err(_) => panic!(rt; "no memory for a merge"),
    }
}

/// Asks what is needed, which is this.
pub(crate) fn needs<R: Abort + Wait>(
    rt: &R,
    shared: &Shared,
    keeper: KeeperPass,
    wanted: Need,
) -> KeeperPass
    requires ours { IsOf shared.now keeper }
    requires keeper { keeper.who ≡ 0 }
    ensures ours { IsOf shared.now result }
    ensures keeper { result.who ≡ 0 }
{
    let (keeper, need) = shared.need(rt, keeper);
    assert!(rt; need == wanted);
    keeper
}
