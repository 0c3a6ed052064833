//! The calls of the keeper.

ghost use Rattle.std.specs.Prelude.{◌≡◌, ◌≤◌, ℕ, IfOk, IsTrue, OnErr, Some, length};
ghost use Rattle.std.specs.Arc.{arc_value};
ghost use Rattle.chew_spec_dictionary.specs.Call.{Freeze, Frozen, Install, Installed};
ghost use Rattle.chew_spec_dictionary.specs.History.{is_legal, start_of};
ghost use Rattle.chew_spec_layers.specs.Overlay.{overlay};
ghost use Rattle.chew_spec_cell.specs.Sight.{HasSeen};
ghost use Rattle.chew_spec_shared.specs.SharedCalls.{Asked, IsOf};
ghost use Rattle.chew_spec_shared.specs.Needs.{IsNeed};
ghost use Rattle.chew_spec_shared.specs.Snapshot.{IsMerge, IsSnapshot, waiting_after};
ghost use Rattle.chew_layers.specs.Need.{meaning_of};

use crate::opened::KeeperPass;
use crate::shared::Shared;
use chew_layers::{Need, Snapshot};
use chew_syllable::NoMemory;
use chew_trie_read::Trie;
use std::sync::{Arc, Wait};

impl Shared {
    /// Has the fresh marks wait, or where some wait already, those go on waiting; and gives what a new base is made of. After
    /// `NoMemory` no entry was made, and the pass comes back having seen at least as much.
    pub fn freeze<R: Wait>(
        &self,
        rt: &R,
        keeper: KeeperPass,
    ) -> (KeeperPass, Result<Snapshot, NoMemory>)
        requires ours { IsOf self.now keeper }
        requires keeper { keeper.who ≡ 0 }
        ensures ours { IsOf self.now result.0 }
        ensures who { result.0.who ≡ 0 }
        ensures ok { IfOk result.1 (λ snapshot. Asked keeper Freeze (Frozen snapshot.upto) result.0.seen) }
        ensures snapshot { IfOk result.1 (λ snapshot. IsSnapshot self.now.start result.0.seen (arc_value snapshot.base)
            (record { marks = arc_value snapshot.frozen; number = snapshot.upto; life = snapshot.life })) }
        ensures few { IfOk result.1 (λ snapshot. length (overlay (arc_value snapshot.base) (arc_value snapshot.frozen)) ≤ 200_000) }
        ensures err { OnErr result.1 (HasSeen keeper.who keeper.seen result.0.seen) }
        ensures legal { IsTrue (is_legal (start_of self.now.start) result.0.seen) }
    {
        let mut turn = self.cell.enter(rt, keeper);
        let snapshot = turn.value.freeze();
        turn.value.keeps();
        (self.cell.leave(turn), snapshot)
    }

    /// Has the merge of the keeper's last snapshot, which waits, take the place of the base and of what waits. It can't be
    /// refused, and takes no memory.
    pub fn install<R: Wait>(&self, rt: &R, keeper: KeeperPass, map: Arc<Trie>) -> KeeperPass
        requires ours { IsOf self.now keeper }
        requires keeper { keeper.who ≡ 0 }
        requires merge { (number : ℕ) × IsMerge self.now.start keeper.seen number (arc_value map) }
        ensures ours { IsOf self.now result }
        ensures who { result.who ≡ 0 }
        ensures ok { (number : ℕ) → waiting_after self.now.start keeper.seen ≡ Some number → Asked keeper (Install number) Installed result.seen }
        ensures legal { IsTrue (is_legal (start_of self.now.start) result.seen) }
    {
        let mut turn = self.cell.enter(rt, keeper);
        turn.value.install(map);
        turn.value.keeps();
        self.cell.leave(turn)
    }

    /// What is needed, so that the base has all that was changed, in a turn that adds no entry. It takes no memory.
    pub fn need<R: Wait>(&self, rt: &R, keeper: KeeperPass) -> (KeeperPass, Need)
        requires ours { IsOf self.now keeper }
        requires keeper { keeper.who ≡ 0 }
        ensures ours { IsOf self.now result.0 }
        ensures who { result.0.who ≡ 0 }
        ensures seen { HasSeen keeper.who keeper.seen result.0.seen }
        ensures legal { IsTrue (is_legal (start_of self.now.start) result.0.seen) }
        ensures need { IsNeed self.now.start result.0.seen (meaning_of result.1) }
    {
        let turn = self.cell.enter(rt, keeper);
        let need = turn.value.need();
        turn.value.keeps();
        (self.cell.leave(turn), need)
    }
}
