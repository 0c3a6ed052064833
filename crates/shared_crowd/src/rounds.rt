//! What a keeper does, round by round.

ghost use Rattle.std.specs.Prelude.{◌≡◌, IfOk};
ghost use Rattle.chew_spec_shared.specs.SharedCalls.{IsOf};

use crate::contexts::Told;
use chew_plain::Reply;
use chew_shared::{KeeperPass, Shared};
use chew_shared_samples::install_merge;
use chew_syllable::NoMemory;
use std::alloc::Global;
use std::sync::Wait;

/// A round of the keeper: it freezes, freezes once more, which leaves what waits, merges that and installs it.
fn round<R: Wait>(rt: &R, alloc: Global, shared: &Shared, kept: Told) -> Result<Told, NoMemory>
    requires ours { IsOf shared.now kept.pass }
    requires keeper { kept.pass.who ≡ 0 }
    ensures ours { IfOk result (λ kept. IsOf shared.now kept.pass) }
    ensures keeper { IfOk result (λ kept. kept.pass.who ≡ 0) }
{
    let Told {
        pass: keeper,
        mut replies,
    } = kept;
    let (keeper, first) = shared.freeze(rt, keeper);
    replies.push(Reply::Frozen(first?.upto))?;
    let (keeper, snapshot) = shared.freeze(rt, keeper);
    let snapshot = snapshot?;
    replies.push(Reply::Frozen(snapshot.upto))?;
    let (pass, _rows) = install_merge(rt, alloc, shared, keeper, &snapshot)?;
    replies.push(Reply::Installed)?;
    Ok(Told { pass, replies })
}

/// So many rounds of the keeper.
pub(crate) fn keep<R: Wait>(
    rt: &R,
    alloc: Global,
    shared: &Shared,
    keeper: KeeperPass,
    rounds: u64,
) -> Result<Told, NoMemory>
    requires ours { IsOf shared.now keeper }
    requires keeper { keeper.who ≡ 0 }
    ensures ours { IfOk result (λ kept. IsOf shared.now kept.pass) }
    ensures keeper { IfOk result (λ kept. kept.pass.who ≡ 0) }
{
    let mut kept = Told {
        pass: keeper,
        replies: Vec::new(alloc),
    };
    'keeping: for _round in 0..rounds {
        kept = round(rt, alloc, shared, kept)?;
    }
    Ok(kept)
}
