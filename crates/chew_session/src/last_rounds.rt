//! The last rounds of a session.

ghost use Rattle.std.specs.Prelude.{◌≡◌, ◌≤◌, ◌<◌, ◌++◌, List, map};
ghost use Rattle.arrayvec.specs.ArrayVec.{array_vec_len};
ghost use Rattle.chew_spec_rounds.specs.Round as spec;
ghost use Rattle.chew_spec_shared.specs.SharedCalls.{IsOf};
ghost use Rattle.chew_layers.specs.Need.{meaning_of};
ghost use Rattle.chew_checkpoint.specs.Answers.{round_of};
ghost use Rattle.chew_session.specs.Saving.{Asks, GoOn, MakeAll, SaveLast, SavesChanges, stage};

use crate::worker::Worker;
use chew_checkpoint::Round;
use chew_layers::Need;
use chew_outside::{Disk, Gate};
use chew_shared::Shared;
use std::alloc::Global;
use std::sync::Wait;

impl Worker {
    /// Asks what is needed.
    fn need<R: Wait>(self, rt: &R, shared: &Shared) -> (Worker, Need)
        requires ours { IsOf shared.now self.keeper }
        requires keeper { self.keeper.who ≡ 0 }
        ensures ours { IsOf shared.now result.0.keeper }
        ensures keeper { result.0.keeper.who ≡ 0 }
        ensures made { result.0.made ≡ self.made }
        ensures items { result.0.made.items ≡ self.made.items }
        ensures checkpointer { result.0.checkpointer ≡ self.checkpointer }
        ensures asks { Asks shared.now.start self.keeper.seen (meaning_of result.1) result.0.keeper.seen }
    {
        let Worker {
            checkpointer,
            keeper,
            made,
        } = self;
        let (keeper, need) = shared.need(rt, keeper);
        let worker = Worker {
            checkpointer,
            keeper,
            made,
        };
        (worker, need)
    }

    /// Makes one round where something is to be frozen, and none else.
    fn save_changes<R: Wait, D: Disk, G: Gate>(
        self,
        alloc: Global,
        rt: &R,
        shared: &Shared,
        gate: &G,
        need: Need,
        disk: &mut D,
    ) -> Worker
        requires ours { IsOf shared.now self.keeper }
        requires keeper { self.keeper.who ≡ 0 }
        requires room { array_vec_len self.made < 66 }
        ensures ours { IsOf shared.now result.keeper }
        ensures keeper { result.keeper.who ≡ 0 }
        ensures told { D.told disk.new ≡ D.told disk.old }
        ensures longer { array_vec_len self.made ≤ array_vec_len result.made }
        ensures saves { (rounds : List spec.Round) × (map round_of result.made.items ≡ map round_of self.made.items ++ rounds)
            × SavesChanges (meaning_of need) self.keeper.seen rounds result.keeper.seen
            × MakeAll shared.now.start (D.told disk.old) (stage self.checkpointer (D.state disk.old) (D.faults disk.old) self.keeper) rounds
            (stage result.checkpointer (D.state disk.new) (D.faults disk.new) result.keeper) }
    {
        match need {
            Need::Fresh => self.round(alloc, rt, shared, gate, disk).0,
            Need::Waiting => self,
            Need::Nothing => self,
        }
    }

    /// Goes on after a round that was made to save what waited: where it was saved, what changed since is saved too.
    fn go_on<R: Wait, D: Disk, G: Gate>(
        self,
        alloc: Global,
        rt: &R,
        shared: &Shared,
        gate: &G,
        round: Round,
        disk: &mut D,
    ) -> Worker
        requires ours { IsOf shared.now self.keeper }
        requires keeper { self.keeper.who ≡ 0 }
        requires room { array_vec_len self.made < 66 }
        ensures ours { IsOf shared.now result.keeper }
        ensures keeper { result.keeper.who ≡ 0 }
        ensures told { D.told disk.new ≡ D.told disk.old }
        ensures longer { array_vec_len self.made ≤ array_vec_len result.made }
        ensures saves { (rounds : List spec.Round) × (map round_of result.made.items ≡ map round_of self.made.items ++ rounds)
            × GoOn shared.now.start (round_of round) self.keeper.seen rounds result.keeper.seen
            × MakeAll shared.now.start (D.told disk.old) (stage self.checkpointer (D.state disk.old) (D.faults disk.old) self.keeper) rounds
            (stage result.checkpointer (D.state disk.new) (D.faults disk.new) result.keeper) }
    {
        match round {
            Round::Saved(_) => {
                let (worker, need) = self.need(rt, shared);
                worker.save_changes(alloc, rt, shared, gate, need, disk)
            }
            Round::DiskFault { step: _ } => self,
            Round::NoMemory => self,
            Round::SeqSpent { seq: _ } => self,
        }
    }

    /// Makes a round where a snapshot waits, and then one where pairs were changed since. They end at the first that isn't
    /// saved.
    pub(crate) fn last_rounds<R: Wait, D: Disk, G: Gate>(
        self,
        alloc: Global,
        rt: &R,
        shared: &Shared,
        gate: &G,
        disk: &mut D,
    ) -> Worker
        requires ours { IsOf shared.now self.keeper }
        requires keeper { self.keeper.who ≡ 0 }
        requires room { array_vec_len self.made ≤ 64 }
        ensures ours { IsOf shared.now result.keeper }
        ensures keeper { result.keeper.who ≡ 0 }
        ensures told { D.told disk.new ≡ D.told disk.old }
        ensures longer { array_vec_len self.made ≤ array_vec_len result.made }
        ensures saves { (rounds : List spec.Round) × (map round_of result.made.items ≡ map round_of self.made.items ++ rounds)
            × SaveLast shared.now.start self.keeper.seen rounds result.keeper.seen
            × MakeAll shared.now.start (D.told disk.old) (stage self.checkpointer (D.state disk.old) (D.faults disk.old) self.keeper) rounds
            (stage result.checkpointer (D.state disk.new) (D.faults disk.new) result.keeper) }
    {
        let (worker, need) = self.need(rt, shared);
        match need {
            Need::Waiting => {
                let (worker, round) = worker.round(alloc, rt, shared, gate, disk);
                worker.go_on(alloc, rt, shared, gate, round, disk)
            }
            Need::Fresh => worker.save_changes(alloc, rt, shared, gate, need, disk),
            Need::Nothing => worker,
        }
    }
}
