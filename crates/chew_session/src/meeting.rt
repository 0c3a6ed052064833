//! Once the contexts have ended, the keeper sees all that they have seen.

ghost use Rattle.std.specs.Prelude.{◌≡◌, ◌≤◌, All, length, vec_capacity, vec_len};
ghost use Rattle.std.specs.List.{AllZip};
ghost use Rattle.chew_spec_cell.specs.Sight.{HasSeen};
ghost use Rattle.chew_spec_shared.specs.SharedCalls.{IsOf};
ghost use Rattle.chew_session.specs.Crew.{SeesMore};

use chew_cell::Pass;
use chew_shared::{KeeperPass, Shared};

/// Lets the keeper meet each of the passes.
pub(crate) fn meet_all(
    shared: &Shared,
    keeper: KeeperPass,
    mut passes: Vec<Pass>,
) -> (KeeperPass, Vec<Pass>)
    requires keeper { IsOf shared.now keeper }
    requires passes { All (λ pass. IsOf shared.now pass) passes.items }
    ensures keeper { IsOf shared.now result.0 }
    ensures passes { All (λ pass. IsOf shared.now pass) result.1.items }
    ensures who { result.0.who ≡ keeper.who }
    ensures seen { HasSeen keeper.who keeper.seen result.0.seen }
    ensures each { AllZip SeesMore passes.items result.1.items }
    ensures most { All (λ pass. length pass.seen ≤ length result.0.seen) result.1.items }
    ensures len { (vec_len result.1 ≡ vec_len passes) × (vec_capacity result.1 ≡ vec_capacity passes) }
{
    match passes.pop() {
        None => (keeper, passes),
        Some(pass) => {
            let (keeper, pass) = shared.meet(keeper, pass);
            let (keeper, mut met) = meet_all(shared, keeper, passes);
            met.push_reserved(pass);
            (keeper, met)
        }
    }
}
