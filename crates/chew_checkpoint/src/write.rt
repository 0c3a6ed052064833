ghost use Rattle.std.specs.Prelude.{◌≡◌, ◌≢◌, ◌↔◌, ◌+◌, ◌≤◌, ℕ, Err, IfErr, IfOk, IsTrue, MatchResult, length, true};
ghost use Rattle.chew_spec_outside.specs.Faults.{HasCause};
ghost use Rattle.chew_spec_disk.specs.Disk.{IsDisk, Later};
ghost use Rattle.chew_spec_slots.specs.Fits.{Fits};
ghost use Rattle.chew_spec_slots.specs.Keep.{is_shut};
ghost use Rattle.chew_spec_rounds.specs.Seq.{last_seq};
ghost use Rattle.chew_spec_rounds.specs.WriteSteps.{WritesCheckpoint};
ghost use Rattle.chew_slots.specs.Calls.{after_calls};
ghost use Rattle.chew_checkpoint.specs.Answers.{FaultStep, kept_after, write_calls, write_failed, write_refused};
ghost use Rattle.chew_checkpoint.specs.declared.fault.WriteFault.TheVariants as write;

use crate::checkpointer::Checkpointer;
use crate::fault::WriteFault;
use crate::steps::write_body;
use chew_outside::Disk;
use chew_slots::{Keep, body_of};
use chew_trie_read::Trie;
use std::alloc::Global;

/// The number of the next checkpoint.
fn next_seq(keep: &Keep) -> Result<u64, WriteFault>
    ensures ok { IfOk result (λ seq. (seq ≡ keep.now.seq + 1) × (keep.now.seq ≢ last_seq)) }
    ensures err { IfErr result (λ fault. (fault ≡ write.SeqSpent keep.now.seq) × (keep.now.seq ≡ last_seq)) }
{
    match keep.spent() {
        Some(seq) => Err(WriteFault::SeqSpent { seq }),
        None => Ok(keep.seq() + 1),
    }
}

impl Checkpointer {
    /// Writes a map and its life to the target slot, which then counts: first its gate is shut, unless it is surely shut, then
    /// the body is written behind it, and then the gate is lifted. The body is made before, so that after `NoMemory` no call of
    /// the disk was made. It waits for nobody.
    pub fn write<D: Disk>(
        &mut self,
        alloc: Global,
        disk: &mut D,
        map: &Trie,
        life: u64,
    ) -> Result<(), WriteFault>
        requires few { length map.now ≤ 200_000 }
        ensures told { D.told disk.new ≡ D.told disk.old }
        ensures spent { (seq : ℕ) → (result ≡ Err (write.SeqSpent seq)) ↔ ((self.old.seq ≡ last_seq) × (seq ≡ last_seq)) }
        ensures untouched { IsTrue (write_refused result) → (disk.new ≡ disk.old) × (self.new ≡ self.old) }
        ensures cause { HasCause (D.faults disk.old) (D.faults disk.new) (write_failed result) }
        ensures known { self.new ≡ kept_after self.old result }
        ensures seq { MatchResult result (λ _. self.new.seq ≡ self.old.seq + 1) (λ _. self.new.seq ≡ self.old.seq) }
        ensures step { FaultStep (is_shut self.old self.old.target) result }
        ensures calls { D.told disk.old ≡ true →
            (D.state disk.new).moment ≡ after_calls (write_calls (is_shut self.old self.old.target) result) (D.state disk.old).moment }
        ensures later { D.told disk.old ≡ true → Later (D.state disk.old) (D.state disk.new) }
        ensures is_disk { D.told disk.old ≡ true → IsDisk (D.state disk.old) → IsDisk (D.state disk.new) }
        ensures writes { D.told disk.old ≡ true → Fits self.old (D.state disk.old) →
            WritesCheckpoint self.old (D.state disk.old) self.new (D.state disk.new)
            (record { seq = self.old.seq + 1; checkpoint = record { life = life; rows = map.now } }) result }
    {
        let seq = next_seq(&self.keep)?;
        let body = body_of(alloc, seq, life, map)?;
        write_body(&mut self.keep, disk, body.as_slice())?;
        Ok(())
    }
}
