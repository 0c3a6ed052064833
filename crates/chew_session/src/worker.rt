//! The keeper's rounds, one after the other.

ghost use Rattle.std.specs.Prelude.{◌≡◌, ◌+◌, ◌<◌, ◌≤◌, [], ◌∷◌, ◌++◌, map};
ghost use Rattle.arrayvec.specs.ArrayVec.{array_vec_len};
ghost use Rattle.chew_spec_shared.specs.SharedCalls.{IsOf};
ghost use Rattle.chew_checkpoint.specs.Answers.{round_of};
ghost use Rattle.chew_session.specs.Saving.{MakeAll, Makes, stage};

use arrayvec::ArrayVec;
use chew_checkpoint::{Checkpointer, Round};
use chew_outside::{Disk, Gate};
use chew_script::ROUNDS_LIMIT;
use chew_shared::{KeeperPass, Shared};
use std::alloc::Global;
use std::sync::Wait;

/// How many rounds a session has at most: those of its worker, and two last ones.
pub const SESSION_ROUNDS_LIMIT: usize = ROUNDS_LIMIT as usize + 2;

/// The keeper at work: what it knows of the slots, its pass, and what the rounds so far answered.
#[derive(Drop)]
pub(crate) struct Worker {
    pub(crate) checkpointer: Checkpointer,
    pub(crate) keeper: KeeperPass,
    pub(crate) made: ArrayVec<Round, SESSION_ROUNDS_LIMIT>,
}

impl Worker {
    /// A keeper that made no round yet.
    pub(crate) fn of(checkpointer: Checkpointer, keeper: KeeperPass) -> Worker
        ensures checkpointer { result.checkpointer ≡ checkpointer }
        ensures keeper { result.keeper ≡ keeper }
        ensures made { result.made.items ≡ [] }
    {
        Worker {
            checkpointer,
            keeper,
            made: ArrayVec::new(),
        }
    }

    /// Makes the next round.
    pub(crate) fn round<R: Wait, D: Disk, G: Gate>(
        self,
        alloc: Global,
        rt: &R,
        shared: &Shared,
        gate: &G,
        disk: &mut D,
    ) -> (Worker, Round)
        requires ours { IsOf shared.now self.keeper }
        requires keeper { self.keeper.who ≡ 0 }
        requires room { array_vec_len self.made < 66 }
        ensures ours { IsOf shared.now result.0.keeper }
        ensures keeper { result.0.keeper.who ≡ 0 }
        ensures told { D.told disk.new ≡ D.told disk.old }
        ensures made { result.0.made.items ≡ self.made.items ++ result.1 ∷ [] }
        ensures makes { Makes shared.now.start (D.told disk.old)
            (stage self.checkpointer (D.state disk.old) (D.faults disk.old) self.keeper) (round_of result.1)
            (stage result.0.checkpointer (D.state disk.new) (D.faults disk.new) result.0.keeper) }
    {
        let Worker {
            mut checkpointer,
            keeper,
            mut made,
        } = self;
        let number = made.len() as u32;
        let (keeper, round) = checkpointer.round(alloc, rt, shared, keeper, disk, gate, number);
        made.push(round);
        let worker = Worker {
            checkpointer,
            keeper,
            made,
        };
        (worker, round)
    }

    /// Makes so many rounds, and goes on after one that fails.
    pub(crate) fn rounds<R: Wait, D: Disk, G: Gate>(
        self,
        alloc: Global,
        rt: &R,
        shared: &Shared,
        gate: &G,
        count: u32,
        disk: &mut D,
    ) -> Worker
        requires ours { IsOf shared.now self.keeper }
        requires keeper { self.keeper.who ≡ 0 }
        requires none { self.made.items ≡ [] }
        requires few { count ≤ 64 }
        ensures ours { IsOf shared.now result.keeper }
        ensures keeper { result.keeper.who ≡ 0 }
        ensures told { D.told disk.new ≡ D.told disk.old }
        ensures count { array_vec_len result.made ≡ count }
        ensures makes { MakeAll shared.now.start (D.told disk.old)
            (stage self.checkpointer (D.state disk.old) (D.faults disk.old) self.keeper) (map round_of result.made.items)
            (stage result.checkpointer (D.state disk.new) (D.faults disk.new) result.keeper) }
    {
        let mut worker = self;
        'saving: for _place in 0..count {
            let (next, _round) = worker.round(alloc, rt, shared, gate, disk);
            worker = next;
        }
        worker
    }
}
