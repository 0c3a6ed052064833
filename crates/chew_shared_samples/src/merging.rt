ghost use Rattle.std.specs.Prelude.{◌≡◌, ◌≤◌, IfOk, length};
ghost use Rattle.std.specs.Arc.{arc_value};
ghost use Rattle.chew_spec_dictionary.specs.Call.{Install, Installed};
ghost use Rattle.chew_spec_layers.specs.Overlay.{overlay};
ghost use Rattle.chew_spec_shared.specs.SharedCalls.{Asked, IsOf};
ghost use Rattle.chew_spec_shared.specs.Snapshot.{IsSnapshot};

use chew_layers::Snapshot;
use chew_merge::merge;
use chew_shared::{KeeperPass, Shared};
use chew_syllable::NoMemory;
use std::alloc::Global;
use std::sync::{Arc, Wait};

/// Merges the keeper's snapshot and installs it, and tells how many rows it has. After `NoMemory` the keeper's pass is gone.
pub fn install_merge<R: Wait>(
    rt: &R,
    alloc: Global,
    shared: &Shared,
    keeper: KeeperPass,
    snapshot: &Snapshot,
) -> Result<(KeeperPass, u32), NoMemory>
    requires ours { IsOf shared.now keeper }
    requires keeper { keeper.who ≡ 0 }
    requires snapshot { IsSnapshot shared.now.start keeper.seen (arc_value snapshot.now.base)
        (record { marks = arc_value snapshot.now.frozen; number = snapshot.now.upto; life = snapshot.now.life }) }
    requires few { length (overlay (arc_value snapshot.now.base) (arc_value snapshot.now.frozen)) ≤ 200_000 }
    ensures ours { IfOk result (λ r. IsOf shared.now r.0) }
    ensures keeper { IfOk result (λ r. r.0.who ≡ 0) }
    ensures installed { IfOk result (λ r. Asked keeper (Install snapshot.now.upto) Installed r.0.seen) }
    ensures rows { IfOk result (λ r. r.1 ≡ length (overlay (arc_value snapshot.now.base) (arc_value snapshot.now.frozen))) }
{
    let merged = merge(alloc, snapshot)?;
    let rows = merged.total();
    let map = Arc::new(alloc, merged)?;
    Ok((shared.install(rt, keeper, map), rows))
}
