ghost use Rattle.std.specs.Prelude.{◌≡◌, ◌≤◌, ◌++◌, ◌+◌, ℕ, List, Err, IfOk, IsTrue, MatchResult, length, true};
ghost use Rattle.std.specs.Arc.{arc_value};
ghost use Rattle.chew_spec_outside.specs.Faults.{HasCause};
ghost use Rattle.chew_spec_disk.specs.Disk.{IsDisk, Later};
ghost use Rattle.chew_spec_dictionary.specs.History.{Entry, calls_of, is_legal, start_of};
ghost use Rattle.chew_spec_layers.specs.Overlay.{overlay};
ghost use Rattle.chew_spec_slots.specs.Fits.{Fits};
ghost use Rattle.chew_spec_slots.specs.Keep.{is_shut};
ghost use Rattle.chew_spec_shared.specs.SharedCalls.{IsOf};
ghost use Rattle.chew_spec_rounds.specs.InStep.{IsInStep};
ghost use Rattle.chew_spec_rounds.specs.Round.{IsRound, KeepersCalls};
ghost use Rattle.chew_spec_rounds.specs.Seq.{CountsSeq, last_seq};
ghost use Rattle.chew_spec_rounds.specs.WriteSteps.{WritesCheckpoint};
ghost use Rattle.chew_slots.specs.Calls.{after_calls};
ghost use Rattle.chew_checkpoint.specs.Answers.{FaultStep, kept_after, round_failed, round_of, write_calls, write_failed, write_of, write_refused};
ghost use Rattle.chew_checkpoint.specs.declared.fault.WriteFault.TheVariants as write;

use crate::checkpointer::Checkpointer;
use crate::fault::WriteFault;
use crate::round::Round;
use chew_layers::{KEEPER, Snapshot};
use chew_merge::merge;
use chew_outside::{Disk, Gate};
use chew_shared::{KeeperPass, Shared};
use chew_syllable::NoMemory;
use chew_trie_read::Trie;
use std::alloc::Global;
use std::sync::{Arc, Wait};

/// The map of a snapshot.
fn merged(alloc: Global, snapshot: &Snapshot) -> Result<Arc<Trie>, NoMemory>
    requires few { length (overlay (arc_value snapshot.now.base) (arc_value snapshot.now.frozen)) ≤ 200_000 }
    ensures { IfOk result (λ map. arc_value map ≡ overlay (arc_value snapshot.now.base) (arc_value snapshot.now.frozen)) }
{
    let map = merge(alloc, snapshot)?;
    Ok(Arc::new(alloc, map)?)
}

impl Checkpointer {
    /// Saves what the dictionary's users did so far: freezes it, merges what then waits into a map, writes the map, and
    /// installs it. Between the freeze and the merge the keeper comes to the place `number` of a gate. Where the acknowledged
    /// checkpoint has the last number nothing is done. After any answer but `Saved` the same calls wait for the next round,
    /// under the same number, and the dictionary answers as it would have.
    pub fn round<R: Wait, D: Disk, G: Gate>(
        &mut self,
        alloc: Global,
        rt: &R,
        shared: &Shared,
        keeper: KeeperPass,
        disk: &mut D,
        gate: &G,
        number: u32,
    ) -> (KeeperPass, Round)
        requires ours { IsOf shared.now keeper }
        requires keeper { keeper.who ≡ 0 }
        ensures ours { IsOf shared.now result.0 }
        ensures who { result.0.who ≡ 0 }
        ensures legal { IsTrue (is_legal (start_of shared.now.start) keeper.seen) → IsTrue (is_legal (start_of shared.now.start) result.0.seen) }
        ensures calls { (more : List Entry) × (result.0.seen ≡ keeper.seen ++ more) × KeepersCalls (round_of result.1) (calls_of more 0) }
        ensures counts { CountsSeq self.old.seq self.new.seq (round_of result.1) }
        ensures known { self.new ≡ kept_after self.old (write_of result.1) }
        ensures told { D.told disk.new ≡ D.told disk.old }
        ensures unwritten { IsTrue (write_refused (write_of result.1)) → disk.new ≡ disk.old }
        ensures cause { HasCause (D.faults disk.old) (D.faults disk.new) (round_failed result.1) }
        ensures step { FaultStep (is_shut self.old self.old.target) (write_of result.1) }
        ensures moments { D.told disk.old ≡ true →
            (D.state disk.new).moment ≡ after_calls (write_calls (is_shut self.old self.old.target) (write_of result.1)) (D.state disk.old).moment }
        ensures later { D.told disk.old ≡ true → Later (D.state disk.old) (D.state disk.new) }
        ensures is_disk { D.told disk.old ≡ true → IsDisk (D.state disk.old) → IsDisk (D.state disk.new) }
        ensures in_step { D.told disk.old ≡ true → IsInStep self.old (D.state disk.old) shared.now.start keeper.seen →
            is_legal (start_of shared.now.start) keeper.seen ≡ true →
            IsInStep self.new (D.state disk.new) shared.now.start result.0.seen }
        ensures round { D.told disk.old ≡ true → IsInStep self.old (D.state disk.old) shared.now.start keeper.seen →
            is_legal (start_of shared.now.start) keeper.seen ≡ true →
            IsRound shared.now.start keeper.seen result.0.seen (D.state disk.old) (D.state disk.new) (round_of result.1) }
    {
        if let Some(seq) = self.keep.spent() {
            return (keeper, Round::SeqSpent { seq });
        }
        let (keeper, frozen) = shared.freeze(rt, keeper);
        let snapshot = match frozen {
            Ok(snapshot) => snapshot,
            Err(NoMemory) => return (keeper, Round::NoMemory),
        };
        gate.reach(rt, KEEPER, number);
        match self.save(alloc, disk, &snapshot) {
            Ok(map) => (shared.install(rt, keeper, map), Round::Saved(snapshot.upto)),
            Err(fault) => (keeper, Round::from(fault)),
        }
    }

    /// Writes the map of a snapshot, and gives it.
    fn save<D: Disk>(
        &mut self,
        alloc: Global,
        disk: &mut D,
        snapshot: &Snapshot,
    ) -> Result<Arc<Trie>, WriteFault>
        requires few { length (overlay (arc_value snapshot.now.base) (arc_value snapshot.now.frozen)) ≤ 200_000 }
        ensures map { IfOk result (λ map. arc_value map ≡ overlay (arc_value snapshot.now.base) (arc_value snapshot.now.frozen)) }
        ensures spent { (seq : ℕ) → result ≡ Err (write.SeqSpent seq) → self.old.seq ≡ last_seq }
        ensures seq { MatchResult result (λ _. self.new.seq ≡ self.old.seq + 1) (λ _. self.new.seq ≡ self.old.seq) }
        ensures known { self.new ≡ kept_after self.old result }
        ensures told { D.told disk.new ≡ D.told disk.old }
        ensures untouched { IsTrue (write_refused result) → disk.new ≡ disk.old }
        ensures cause { HasCause (D.faults disk.old) (D.faults disk.new) (write_failed result) }
        ensures step { FaultStep (is_shut self.old self.old.target) result }
        ensures calls { D.told disk.old ≡ true →
            (D.state disk.new).moment ≡ after_calls (write_calls (is_shut self.old self.old.target) result) (D.state disk.old).moment }
        ensures later { D.told disk.old ≡ true → Later (D.state disk.old) (D.state disk.new) }
        ensures is_disk { D.told disk.old ≡ true → IsDisk (D.state disk.old) → IsDisk (D.state disk.new) }
        ensures writes { D.told disk.old ≡ true → Fits self.old (D.state disk.old) →
            WritesCheckpoint self.old (D.state disk.old) self.new (D.state disk.new)
            (record {
              seq = self.old.seq + 1;
              checkpoint = record { life = snapshot.now.life; rows = overlay (arc_value snapshot.now.base) (arc_value snapshot.now.frozen) };
            }) result }
    {
        let map = merged(alloc, snapshot)?;
        self.write(alloc, disk, &*map, snapshot.life)?;
        Ok(map)
    }
}
